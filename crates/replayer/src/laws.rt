ghost use Rattle.replayer.specs.Known.{KnownOfThreads};
ghost use Rattle.replayer.specs.OwnLog.{OwnLogLaw};
ghost use Rattle.replayer.specs.Threads.{RecordedRunsAreReplayed, RunsAgreeWithReplays};
ghost use Rattle.replayer.specs.UpgradeLaws.{PlainRunsAreUpgraded, RecordedRunsAreUpgraded};
ghost use Rattle.replayer.specs.UpgradeLaws.{RefusedAlike, RunsAreUpgraded};

use call_machine::{logs_of_plain_runs, logs_of_runs, plain_runs_agree};
use host_doors::Outside;
use input_log::{fronts_have_their_version, one_fault, one_value, what_was_written_is_read};
use lock_model::{
    arising_states, one_event, outcomes_that_came, plain_run_ends, prefix_law, turn_order,
};
use machine::outcomes_are_recorded;
use thread_scripts::{Actor, programs_of_scripts};

// What the laws of other crates say of runs, of their logs, and of texts.
fn known()
    ensures { KnownOfThreads }
{
    arising_states();
    one_event();
    outcomes_that_came();
    plain_run_ends();
    prefix_law();
    turn_order();
    programs_of_scripts();
    logs_of_plain_runs();
    logs_of_runs();
    plain_runs_agree();
    one_value();
    one_fault();
    fronts_have_their_version();
    outcomes_are_recorded();
    what_was_written_is_read();
}

/// A replay of the log that a plain run itself wrote, with the run's own scripts, gives that run
/// again: the same transcripts, the same history where it came to its end, and the same stop. Where
/// the run stopped because an outcome did not answer what was asked, that outcome is not in the log:
/// the replay goes on as far as the outcomes that came lead, and ends where a thread that has the
/// turn is stuck; what each thread saw in the run is a beginning of what it sees there. A replay may
/// also run out of memory, which says nothing.
pub fn own_log()
    ensures { OwnLogLaw }
{
    known();
}

/// A replay of the log that a recorded run wrote gives every thread the same replies. Of a run of
/// `recorder::record_actors` whose log's header was taken and whose stop is not `Strayed`, and for
/// scripts that the actors' meanings begin: what each thread saw is a beginning of what the replay of
/// the bytes that the sink took gives, which diverges nowhere; and where nothing stopped the run, the
/// replay comes to its end with the same transcripts and the same history. A replay may also run
/// out of memory, which says nothing. What is asked of the run are the clauses `run` and `steps` of
/// `record_actors`.
pub fn recorded_runs_are_replayed<A: Actor, O: Outside>()
    ensures { RecordedRunsAreReplayed O.Door A.state }
{
    known();
}

// Whatever stopped it, a run by a log agrees with the log's replay, unless its threads strayed.
pub(crate) fn runs_agree_with_replays<A: Actor>()
    ensures { RunsAgreeWithReplays A.state }
{
    known();
}

/// The upgrade of the log of version 1 that a run writes is the log of version 2 that it writes. So it
/// is for each run of the lock machine under scripts, in whatever order its events come, and for each
/// text with its log at the front, as one that is torn in its last item (`any`); and for plain runs
/// (`plain`). A log of version 1 that a replay refuses as `Log`, `Threads` or `Diverged` is refused
/// so (`refused`). An upgrade may also run out of memory, which says nothing.
pub fn runs_are_upgraded()
    ensures any { RunsAreUpgraded }
    ensures plain { PlainRunsAreUpgraded }
    ensures refused { RefusedAlike }
{
    known();
}

/// The upgrade of what a recorded run of version 1 wrote has the same records in the same order, each
/// with the clock of the turn that its row has in the run's own history: it is a log of version 2 that
/// covers that history. It is asked of the run what `recorded_runs_are_replayed` asks. An upgrade may
/// also run out of memory, which says nothing.
pub fn recorded_runs_are_upgraded<A: Actor, O: Outside>()
    ensures { RecordedRunsAreUpgraded O.Door A.state }
{
    known();
}
