// The runs of scripts that are drawn.
ghost use Rattle.std.specs.Prelude.{◌≡◌, length, IfOk, true};
ghost use Rattle.call_machine.specs.Plain.{counts_fit};
ghost use Rattle.commands.specs.Ran.{RunRan};
ghost use Rattle.compare_and_draw.specs.Runs.{PlainComes, TextsCome};

use crate::clocks::NotedClocks;
use call_machine::{PlainFault, plain_run_watched};
use command_inputs::{ToRun, bad_settings, no_outcomes, to_run};
use commands::{Ran, Run, run_ran};
use posix_terms::{Bytes, Settings};
use std::alloc::{AllocError, Global};
use thread_scripts::Script;

/// What came of a run, and the clocks of its calls.
#[derive(Debug, Drop)]
pub struct Watched {
    pub ran: Ran,
    pub clocks: NotedClocks,
}

/// What comes of the plain run of the scripts of these texts.
pub fn plain_ran(alloc: Global, settings: Settings, texts: &[Bytes]) -> Result<Watched, AllocError>
    requires { counts_fit (length texts.now) (length texts.now) ≡ true }
    ensures { IfOk result (λ watched. TextsCome (PlainComes settings) texts.now watched.ran) }
{
    let mut clocks = NotedClocks::new(alloc)?;
    match to_run(alloc, false, texts)? {
        ToRun::Scripts(scripts) => {
            let ran = scripts_ran(alloc, settings, scripts, &mut clocks)?;
            Ok(Watched { ran, clocks })
        }
        ToRun::Fault(printed) => {
            let ran = Ran::Fault(printed);
            Ok(Watched { ran, clocks })
        }
    }
}

// What comes of the plain run of scripts.
fn scripts_ran(
    alloc: Global,
    settings: Settings,
    scripts: Vec<Script>,
    clocks: &mut NotedClocks,
) -> Result<Ran, AllocError>
    requires { counts_fit (length scripts.items) (length scripts.items) ≡ true }
    ensures { IfOk result (PlainComes settings scripts.items) }
{
    let outcomes = no_outcomes(alloc, scripts.len())?;
    match plain_run_watched(alloc, scripts, outcomes, settings, clocks) {
        Ok(plain) => Ok(Ran::Run(Run::of_plain(plain))),
        Err(PlainFault::Memory) => Err(AllocError),
        Err(PlainFault::Threads) => unreachable!(),
        Err(PlainFault::Settings) => Ok(Ran::Fault(bad_settings(alloc)?)),
    }
}

/// What comes of the replay of a log with the scripts of these texts.
pub fn log_ran(alloc: Global, log: &[u8], texts: &[Bytes]) -> Result<Watched, AllocError>
    ensures { IfOk result (λ watched. TextsCome (RunRan log.now) texts.now watched.ran) }
{
    let mut clocks = NotedClocks::new(alloc)?;
    match to_run(alloc, false, texts)? {
        ToRun::Scripts(scripts) => {
            let ran = run_ran(alloc, log, scripts, &mut clocks)?;
            Ok(Watched { ran, clocks })
        }
        ToRun::Fault(printed) => {
            let ran = Ran::Fault(printed);
            Ok(Watched { ran, clocks })
        }
    }
}
