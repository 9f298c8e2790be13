ghost use Rattle.std.specs.Prelude.{◌≡◌, ◌<◌, length};
ghost use Rattle.lock_machine.specs.Refusals.{phase_at};
ghost use Rattle.machine.specs.InTurn.{all_let_go, lets_go, may_go};
ghost use Rattle.machine.specs.Requests.{out_of};

use crate::machine::Machine;
use input_log::LogSink;
use lock_machine::Phase;

// Where a driver has calls go outside in the order of the turns, they go one after the other, by
// the numbers of their rows. Nobody waits forever for that: of the calls that are about to go
// outside, or are there, the one with the least number waits for none of the others.
impl<S: LogSink, D: Drop> Machine<S, D> {
    /// Whether thread i is about to go outside, and each call that was granted before its own and
    /// goes outside has its record. A driver that waits for this before
    /// [`Machine::begin_outside`] reaches the outside in the order of the turns.
    pub fn may_go(&self, i: usize) -> bool
        requires { i < length self.now.whole.threads }
        ensures { result ≡ may_go self.now.whole.threads (phase_at self.now.whole i) }
    {
        match self.phase(i) {
            Phase::ToOutside(outing) => all_let_go(self, outing.row),
            _ => false,
        }
    }
}

fn all_let_go<S: LogSink, D: Drop>(machine: &Machine<S, D>, row: usize) -> bool
    ensures { result ≡ all_let_go row machine.now.whole.threads }
{
    for i in 0..machine.len() {
        if !lets_go(row, machine.phase(i)) {
            return false;
        }
    }
    true
}

// Whether a thread at this phase lets the call with this row go outside.
fn lets_go(row: usize, phase: &Phase) -> bool
    ensures { result ≡ lets_go row (out_of phase.now) }
{
    match phase {
        Phase::ToOutside(outing) | Phase::Outside(outing) => !(outing.row < row),
        _ => true,
    }
}
