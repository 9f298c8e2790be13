ghost use Rattle.std.specs.Prelude.{◌≡◌, IfOk};
ghost use Rattle.sequential_object.specs.Legal.{IsLegal};
ghost use Rattle.lock_machine.specs.Shows.{ClocksShown};
ghost use Rattle.lock_machine.specs.Starting.{ShowsAtStart};
ghost use Rattle.lock_model.specs.Came.{CameIsRows};
ghost use Rattle.lock_model.specs.Laws.{DatedOfArisen, RisingOfArisen};
ghost use Rattle.lock_model.specs.RealLaws.{RealLegalOfArisen};
ghost use Rattle.call_machine.specs.Covered.{HasSpelling, IsCovered, RecordsCame};
ghost use Rattle.call_machine.specs.History.{AreRising};
ghost use Rattle.call_machine.specs.Plain.{Runs, counts_fit, header_of};
ghost use Rattle.machine.specs.RecordLaws.{RecordLaws};

use crate::driver::Driver;
use crate::fault::PlainFault;
use crate::laws::logs_of_plain_runs;
use crate::plain::Plain;
use crate::watch::{NoWatch, WatchesRun};
use input_log::Header;
use lock_machine::{SpareStore, machines_show};
use lock_model::{arising_states, outcomes_that_came, real_runs};
use machine::{are_in_range, outcomes_are_recorded};
use posix_terms::{Limits, Outcomes, Settings};
use std::alloc::Global;
use thread_scripts::Script;

/// Runs 1 to 16 scripts together on the plain schedule: the same order of calls each time, whatever the
/// machine. There is a list of outcomes from outside for each script, of which each call that goes outside takes the
/// next.
///
/// At each moment the lowest-numbered thread that can go on without the turn does so; when none can, the thread that
/// holds the turn tries for the lock that its call wants. Two things
/// hold a thread back: its list has no outcome left for
/// what it asked; or a number is at its limit, its clock or the count of its outcomes. The others then run on until the
/// turn is its own, and there the run stops, with `EndOfLog` in the first case and `ClockFull` in the second; it has no
/// stop once all threads have ended. An outcome that does not answer what was asked stops it at once, with `Diverged`,
/// where the thread that it is for would be the next to go on.
///
/// The history is legal, and its turns rise. The log is a header, a record of each outcome in the order in which they
/// came, each before its call was answered, and, where all threads ended, the end. These bytes spell a log of the
/// settings' version, and by thread its records are the outcomes of the rows, in version 2 with the clocks of their
/// turns (`covered`).
pub fn plain_run(
    alloc: Global,
    scripts: Vec<Script>,
    outcomes: Vec<Outcomes>,
    settings: Settings,
) -> Result<Plain, PlainFault>
    ensures run { Runs result (record {
      scripts = scripts.items;
      outcomes = outcomes.items;
      settings = settings;
    }) }
    ensures legal { IfOk result (λ plain. IsLegal settings plain.history.rows) }
    ensures rising { IfOk result (λ plain. AreRising plain.history.rows) }
    ensures covered { IfOk result (λ plain. IsCovered
        (header_of (record {
          scripts = scripts.items;
          outcomes = outcomes.items;
          settings = settings;
        })) plain.history.rows plain.log) }
{
    plain_run_kept(alloc, &mut SpareStore::new(), scripts, outcomes, settings)
}

/// Runs scripts as [`plain_run`] does, over the store that an earlier run left in `spare`, where there
/// is one, and leaves it there for the next. After an error there may be none: then the next run
/// makes a new one.
pub fn plain_run_kept(
    alloc: Global,
    spare: &mut SpareStore,
    scripts: Vec<Script>,
    outcomes: Vec<Outcomes>,
    settings: Settings,
) -> Result<Plain, PlainFault>
    ensures run { Runs result (record {
      scripts = scripts.items;
      outcomes = outcomes.items;
      settings = settings;
    }) }
    ensures legal { IfOk result (λ plain. IsLegal settings plain.history.rows) }
    ensures rising { IfOk result (λ plain. AreRising plain.history.rows) }
    ensures covered { IfOk result (λ plain. IsCovered
        (header_of (record {
          scripts = scripts.items;
          outcomes = outcomes.items;
          settings = settings;
        })) plain.history.rows plain.log) }
{
    run_watched(alloc, spare, scripts, outcomes, settings, &mut NoWatch)
}

/// Runs scripts as [`plain_run`] does, and shows `watch` how far the run has come.
pub fn plain_run_watched<W: WatchesRun>(
    alloc: Global,
    scripts: Vec<Script>,
    outcomes: Vec<Outcomes>,
    settings: Settings,
    watch: &mut W,
) -> Result<Plain, PlainFault>
    ensures run { Runs result (record {
      scripts = scripts.items;
      outcomes = outcomes.items;
      settings = settings;
    }) }
    ensures legal { IfOk result (λ plain. IsLegal settings plain.history.rows) }
    ensures rising { IfOk result (λ plain. AreRising plain.history.rows) }
    ensures covered { IfOk result (λ plain. IsCovered
        (header_of (record {
          scripts = scripts.items;
          outcomes = outcomes.items;
          settings = settings;
        })) plain.history.rows plain.log) }
{
    run_watched(
        alloc,
        &mut SpareStore::new(),
        scripts,
        outcomes,
        settings,
        watch,
    )
}

// The work of all of them.
fn run_watched<W: WatchesRun>(
    alloc: Global,
    spare: &mut SpareStore,
    scripts: Vec<Script>,
    outcomes: Vec<Outcomes>,
    settings: Settings,
    watch: &mut W,
) -> Result<Plain, PlainFault>
    ensures run { Runs result (record {
      scripts = scripts.items;
      outcomes = outcomes.items;
      settings = settings;
    }) }
    ensures legal { IfOk result (λ plain. IsLegal settings plain.history.rows) }
    ensures rising { IfOk result (λ plain. AreRising plain.history.rows) }
    ensures covered { IfOk result (λ plain. IsCovered
        (header_of (record {
          scripts = scripts.items;
          outcomes = outcomes.items;
          settings = settings;
        })) plain.history.rows plain.log) }
{
    if !counts_fit(scripts.len(), outcomes.len()) {
        return Err(PlainFault::Threads);
    }
    if !are_in_range(settings) {
        return Err(PlainFault::Settings);
    }
    laws();
    let header = Header::new(scripts.len() as u16, settings);
    let mut driver = Driver::new(alloc, spare, scripts, outcomes, header)?;
    let diverged = driver.run(alloc, watch)?;
    Ok(driver.finish(alloc, spare, diverged)?)
}

fn counts_fit(scripts: usize, outcomes: usize) -> bool
    ensures { result ≡ counts_fit scripts outcomes }
{
    1 <= scripts && scripts <= Limits::THREADS && outcomes == scripts
}

// What holds of each plain run.
fn laws()
    ensures starts { ShowsAtStart }
    ensures clocks { ClocksShown }
    ensures legal { RealLegalOfArisen }
    ensures rising { RisingOfArisen }
    ensures rows { CameIsRows }
    ensures dated { DatedOfArisen }
    ensures records { RecordLaws }
    ensures came { RecordsCame }
    ensures spelled { HasSpelling }
{
    machines_show();
    real_runs();
    arising_states();
    outcomes_that_came();
    outcomes_are_recorded();
    logs_of_plain_runs();
}
