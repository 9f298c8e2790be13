use crate::pulse::{LOOKS, Stillness};
use crate::shared::SharedRun;
use input_log::LogSink;
use machine::Machine;
use std::sync::Wait;
use std::time::Duration;

/// Who is shown a run in which nothing moves, or that goes on.
pub trait Watch {
    /// After how long without a new step a run counts as standing still. None where it is not
    /// watched: then no thread is started for it.
    fn pause(&self) -> Option<Duration>;

    /// Whether the run is shown while it goes on, too: eight times in a pause, and once more when
    /// all threads are back.
    fn follows(&self) -> bool;

    /// The run goes on, or is over. It is called where the watch follows, with the machine locked:
    /// nothing moves before it returns.
    fn goes_on<S: LogSink, D: Drop>(&mut self, machine: &Machine<S, D>);

    /// No thread has asked a step, or ended, for about that long. It is called once for each such
    /// time, with the machine locked: nothing moves before it returns.
    fn stands<S: LogSink, D: Drop>(&mut self, machine: &Machine<S, D>);
}

/// A run that nobody watches.
#[derive(Clone, Copy, Debug, PartialEq, Eq)]
pub struct Unwatched;

impl Watch for Unwatched {
    fn pause(&self) -> Option<Duration> {
        None
    }

    fn follows(&self) -> bool {
        false
    }

    fn goes_on<S: LogSink, D: Drop>(&mut self, _machine: &Machine<S, D>) {}

    fn stands<S: LogSink, D: Drop>(&mut self, _machine: &Machine<S, D>) {}
}

/// How a run is recorded, beside its settings.
#[derive(Drop)]
pub struct Manner<W> {
    /// Whether calls go outside in the order of the turns, one after the other: each once all that
    /// were granted before it have their records. Then one that does not come back keeps back all
    /// after it.
    pub in_turn: bool,
    pub watch: W,
}

// Looks at the run until it is over, and shows it each time that it stands still.
pub fn keep_watch<W: Watch + Drop, S: LogSink, D: Drop, R: Wait>(
    rt: &R,
    shared: &SharedRun<S, D>,
    pause: Duration,
    watch: W,
) {
    let mut watch = watch;
    let mut stillness = Stillness::new();
    for _ in rt.forever() {
        shared.pulse.sleep(rt, pause / LOOKS);
        let is_over = shared.pulse.is_over();
        if watch.follows() {
            watch.goes_on(&shared.held.lock(rt).machine);
        }
        if is_over {
            return;
        }
        if stillness.has_come(shared.pulse.beats()) {
            show(rt, shared, stillness.beats(), &mut watch);
        }
    }
}

// Shows the run, unless it has moved since so many beats.
fn show<W: Watch, S: LogSink, D: Drop, R: Wait>(
    rt: &R,
    shared: &SharedRun<S, D>,
    beats: u64,
    watch: &mut W,
) {
    let held = shared.held.lock(rt);
    if shared.pulse.beats() == beats {
        watch.stands(&held.machine);
    }
}
