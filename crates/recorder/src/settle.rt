ghost use Rattle.std.specs.Prelude.{◌≡◌, ◌<◌, Some, length, replicate, true, unwrap_or};
ghost use Rattle.posix_terms.specs.declared.limits.TheConstants.Limits as limit;
ghost use Rattle.recorder.specs.Leaving.{cause_of};

use crate::leave::Leave;
use crate::shared::{Guarded, Wakes};
use input_log::LogSink;
use lock_machine::Phase;
use machine::{Machine, Refused};
use posix_terms::Answer;

// Makes every attempt that can be made, for whichever thread has the turn, and answers each call
// that is granted then, so that its worker need only take the reply. Attempts that must fail are
// skipped. Whoever made an event does so before it lets the machine go, so nobody has to hunt for
// its turn. A refusal stops the machine.
pub fn settle<S: LogSink, D: Drop>(held: &mut Guarded<S, D>) {
    // It ends long before: each attempt adds to a clock, and a full one stops the machine.
    for _ in 0..u64::MAX {
        let Ok(Some(holder)) = held.machine.skip_failures() else {
            return;
        };
        match turn(held, holder) {
            Ok(()) => {}
            // An event of its worker's is next, or somebody stopped the machine.
            Err(Refused::WrongPhase) | Err(Refused::Stopped(_)) => return,
            Err(refused) => {
                stop(held, Leave::from(refused));
                return;
            }
        }
    }
}

// Stops the machine. All workers are to be woken: each is to see it.
pub fn stop<S: LogSink, D: Drop>(held: &mut Guarded<S, D>, leave: Leave)
    ensures machine { held.new.machine ≡ record held.old.machine {
      stop = Some (unwrap_or held.old.machine.stop (cause_of leave));
    } }
    ensures told { held.new.told.items ≡ held.old.told.items }
    ensures woken { held.new.wakes.of ≡ replicate limit.THREADS true }
{
    // Refused where it is stopped already: the first cause stands.
    let _first = held.machine.stop(leave.cause());
    held.wakes = Wakes::all();
}

// The attempt of thread i, which has the turn; and the answer, if its call is granted then. A
// worker whose call goes outside is to be woken for that.
fn turn<S: LogSink, D: Drop>(held: &mut Guarded<S, D>, i: usize) -> Result<(), Refused>
    requires { i < length held.old.machine.whole.threads }
{
    attempt(&mut held.machine, i)?;
    match held.machine.phase(i) {
        Phase::Granted { .. } => {
            if let Answer::Reply(reply) = held.machine.answer(i)? {
                held.tell(i, reply);
            }
        }
        Phase::ToOutside(_) => held.wakes.add(i),
        _ => {}
    }
    Ok(())
}

// The attempt of thread i, which has the turn: at the lock that it wants, or again at the call in
// which it was blocked.
fn attempt<S: LogSink, D: Drop>(machine: &mut Machine<S, D>, i: usize) -> Result<(), Refused>
    requires { i < length machine.old.whole.threads }
    ensures { length machine.new.whole.threads ≡ length machine.old.whole.threads }
{
    match machine.phase(i) {
        Phase::WantsTable { .. } => {
            machine.try_table(i)?;
        }
        Phase::WantsObject { .. } => {
            machine.try_node(i)?;
        }
        Phase::Blocked { .. } => machine.again(i)?,
        _ => return Err(Refused::WrongPhase),
    }
    Ok(())
}
