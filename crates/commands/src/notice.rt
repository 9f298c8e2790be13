ghost use Rattle.std.specs.Prelude.{◌≡◌, ◌<◌, Some, length};

use crate::follower::Follower;
use crate::places::line_of;
use crate::standing::{Standing, blocked_turns, where_stands};
use input_log::LogSink;
use machine::Machine;
use posix_terms::{Bytes, Step};
use recorder::Watch;
use std::alloc::{AllocError, Global};
use std::io::Write;
use std::time::Duration;

/// Says on a device where a run of scripts stands in which no thread has come to a new step for a
/// while: a line for the run, and one for each thread that has not ended. Where the run is followed
/// it says each row, too.
#[derive(Drop)]
pub(crate) struct Notices<'a, N: Write + Drop> {
    /// Where the memory for what is said comes from.
    pub alloc: Global,
    /// How long no thread has asked a step or ended, where the run counts as standing still.
    pub pause: Duration,
    /// The texts of the scripts, by thread.
    pub texts: &'a [Bytes],
    /// Which rows were shown, where the run is followed.
    pub follower: Option<Follower>,
    pub device: N,
}

impl<N: Write + Drop> Watch for Notices<'_, N> {
    fn pause(&self) -> Option<Duration>
        ensures { result ≡ Some self.now.pause }
    {
        Some(self.pause)
    }

    fn follows(&self) -> bool {
        self.follower.is_some()
    }

    fn goes_on<S: LogSink, D: Drop>(&mut self, machine: &Machine<S, D>) {
        let Some(follower) = &mut self.follower else {
            return;
        };
        if let Ok(text) = follower.new_lines(self.alloc, machine.history()) {
            let _ = self.device.write_all(text.as_slice());
        }
    }

    fn stands<S: LogSink, D: Drop>(&mut self, machine: &Machine<S, D>) {
        if let Ok(text) = notice(self.alloc, self.pause, self.texts, machine) {
            let _ = self.device.write_all(text.as_bytes());
        }
    }
}

// The lines of a notice.
fn notice<S: LogSink, D: Drop>(
    alloc: Global,
    pause: Duration,
    texts: &[Bytes],
    machine: &Machine<S, D>,
) -> Result<String, AllocError> {
    let pause = pause.as_millis();
    let mut text = format!(in alloc; "detio: for {pause} ms no thread has come to a new step\n")?;
    for i in 0..machine.len() {
        if i < texts.len() {
            text.push_str(thread_lines(alloc, machine, i, texts[i].as_slice())?.as_str())?;
        }
    }
    Ok(text)
}

// What is said of thread i, whose script has this text: a line, and one more where it starves.
fn thread_lines<S: LogSink, D: Drop>(
    alloc: Global,
    machine: &Machine<S, D>,
    i: usize,
    text: &[u8],
) -> Result<String, AllocError>
    requires { i < length machine.now.whole.threads }
{
    let standing = where_stands(machine, i);
    if let Standing::Ended = standing {
        return Ok(String::new(alloc));
    }
    let word = last_call(machine, i);
    let stands = standing_text(alloc, standing)?;
    let blocked = blocked_text(alloc, blocked_turns(machine, i))?;
    let place = match line_of(alloc, machine, i, text) {
        Some(line) => format!(in alloc; "line {line} of script {i}")?,
        None => format!(in alloc; "script {i}")?,
    };
    let starves = starving_text(alloc, machine, i, standing)?;
    format!(in alloc; "  thread {i}, {place}: {word} {stands}{blocked}\n{starves}")
}

// The word of the call that thread i asked last.
fn last_call<S: LogSink, D: Drop>(machine: &Machine<S, D>, i: usize) -> &'static str
    requires { i < length machine.now.whole.threads }
{
    match machine.asked(i).last() {
        Some(Step::Call(call)) => call.kind().word(),
        Some(Step::Work(_)) => "work",
        Some(Step::End) => "end",
        None => "the beginning",
    }
}

fn standing_text(alloc: Global, standing: Standing) -> Result<String, AllocError> {
    match standing {
        Standing::Working => format!(in alloc; "is done, and the next step not asked"),
        Standing::Leaves => format!(in alloc; "is to go outside"),
        Standing::Outside => format!(in alloc; "is outside"),
        Standing::WaitsForTurn(j) => format!(in alloc; "waits for the turn of thread {j}"),
        Standing::WaitsForTable(j) => {
            format!(in alloc; "waits for the table, which thread {j} keeps")
        }
        Standing::WaitsForObject(object, j) => {
            format!(in alloc; "waits for object {object}, which thread {j} keeps")
        }
        Standing::Answered => format!(in alloc; "has its reply"),
        Standing::Ended => Ok(String::new(alloc)),
    }
}

fn blocked_text(alloc: Global, turns: u32) -> Result<String, AllocError> {
    if turns == 0 {
        return Ok(String::new(alloc));
    }
    format!(in alloc; ", after {turns} turns in which it was blocked")
}

// Where thread i waits for the table, and the one that keeps it makes a
// blocked call again and again: that is what starves it.
fn starving_text<S: LogSink, D: Drop>(
    alloc: Global,
    machine: &Machine<S, D>,
    i: usize,
    standing: Standing,
) -> Result<String, AllocError>
    requires { i < length machine.now.whole.threads }
{
    if let Standing::WaitsForTable(j) = standing {
        if j < i && blocked_turns(machine, j) > 0 {
            return format!(in alloc;
                "  thread {i} starves: thread {j} takes the table first at each of its turns; give its script last\n"
            );
        }
    }
    Ok(String::new(alloc))
}
