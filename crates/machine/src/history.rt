ghost use Rattle.std.specs.Prelude.{◌≡◌, ◌<◌, length};
ghost use Rattle.lock_machine.specs.Whole.{thread_at};
ghost use Rattle.lock_machine.specs.Refusals.{phase_at};
ghost use Rattle.lock_model.specs.Held.{has_end};
ghost use Rattle.machine.specs.Faithful.{IsFaithful};
ghost use Rattle.machine.specs.Finishing.{is_ended};

use crate::machine::Machine;
use input_log::LogSink;
use lock_machine::requests_asked;
use lock_model::{
    arising_states, one_event, outcomes_that_came, plain_run_ends, prefix_law, real_runs,
};
use posix_terms::{PackedRow, Step};

impl<S: LogSink, D: Drop> Machine<S, D> {
    /// The granted turns so far, in their order, each with its outcome once it came and its answer once it was given.
    ///
    /// At any time the machine is faithful to them, as it is after each event
    /// (`faithful`). It is the end of a run of just the steps that were
    /// asked and the outcomes that were recorded (`kept`). This history is legal:
    /// the sequential object, given the calls in this order, gives each
    /// answer (`legal`). Its turns rise (`rising`). The bytes that the log's writer
    /// handed to its sink cover it, kinds too (`covered`). And what
    /// each thread saw is a beginning of what it sees in the plain run of those
    /// steps and outcomes, and so are all rows together; once all threads
    /// have ended it is all of it (`begins`).
    pub fn history(&self) -> &[PackedRow]
        ensures rows { result.now ≡ self.now.whole.rows }
        ensures faithful { IsFaithful D self.now }
    {
        self.faithful();
        self.calls.rows()
    }

    // What is true of each machine makes it faithful, by the laws of runs.
    pub(crate) fn faithful(&self)
        ensures { IsFaithful D self.now }
    {
        // A look at a field, by which what is true of the machine is known here.
        let _ = self.calls.len();
        arising_states();
        real_runs();
        outcomes_that_came();
        prefix_law();
        plain_run_ends();
        requests_asked();
    }

    /// The steps that thread i asked, in order. `End` is the last exactly when the thread has ended.
    pub fn asked(&self, i: usize) -> &[Step]
        requires { i < length self.now.whole.threads }
        ensures steps { result.now ≡ (thread_at self.now.whole i).asked }
        ensures end { has_end result.now ≡ is_ended (phase_at self.now.whole i) }
    {
        arising_states();
        one_event();
        self.calls.asked(i)
    }
}
