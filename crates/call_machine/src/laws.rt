ghost use Rattle.call_machine.specs.Covered.{HasSpelling, NoneDiverges, RecordsCame};
ghost use Rattle.call_machine.specs.Plain.{OnePlainRun};
ghost use Rattle.call_machine.specs.RunLogs.{PlainIsMade, RunHasSpelling, RunRecordsCame};
ghost use Rattle.call_machine.specs.RunLogs.{RunsOfBothVersions};

use lock_machine::requests_asked;
use lock_model::{arising_states, one_event, outcomes_that_came};
use machine::outcomes_are_recorded;

/// The log of a plain run, after any number of events. By thread the outcomes of its records are
/// those that came, in order, in version 1 without their clocks (`came`); it is a log, which has a
/// spelling (`spelled`); and a plain run under exactly those outcomes never diverges (`straight`). So
/// the log of a run leads to that run again. The contract is the law.
pub fn logs_of_plain_runs()
    ensures came { RecordsCame }
    ensures spelled { HasSpelling }
    ensures straight { NoneDiverges }
{
    one_event();
    outcomes_that_came();
    requests_asked();
    outcomes_are_recorded();
    arising_states();
}

/// The log of any run of scripts, whatever the order of its events. By thread the outcomes of its
/// records are those that came, in version 1 without their clocks (`came`); it is a log, which has
/// a spelling (`spelled`); in version 2 it is that of version 1 with the clocks of what came
/// (`versions`). So many events of the plain schedule are such a run (`plain`). The contract is the
/// law.
pub fn logs_of_runs()
    ensures came { RunRecordsCame }
    ensures spelled { RunHasSpelling }
    ensures versions { RunsOfBothVersions }
    ensures plain { PlainIsMade }
{
    one_event();
    outcomes_that_came();
    requests_asked();
    outcomes_are_recorded();
    arising_states();
}

/// There is one plain run of given scripts, outcomes and settings: whatever is one has the same transcripts, history,
/// log and stop. The body is empty: the contract is the law.
pub fn plain_runs_agree()
    ensures { OnePlainRun }
{}
