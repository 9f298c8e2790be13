ghost use Rattle.std.specs.Prelude.{IfOk, length};
ghost use Rattle.command_inputs.specs.Expects.{IsToRun, RunsEach};

use command_texts::{
    FirstFault, Printed, bad_expectation, bad_line, first_bad_expectation, scripts, too_long,
};
use posix_terms::Bytes;
use std::alloc::{AllocError, Global};
use thread_scripts::Script;

/// What is to be run of texts.
#[derive(Drop)]
pub enum ToRun {
    /// Their scripts.
    Scripts(Vec<Script>),
    /// Nothing: this is printed for their first fault.
    Fault(Printed),
}

/// The scripts of texts; or what is printed for the first text that is not a script or, where all
/// are and expectations are asked for, for the first bad expectation.
pub fn to_run(alloc: Global, expect: bool, texts: &[Bytes]) -> Result<ToRun, AllocError>
    ensures run { IfOk result (IsToRun expect texts.now) }
    ensures each { IfOk result (RunsEach (length texts.now)) }
{
    let scripts = match scripts(alloc, texts) {
        Ok(scripts) => scripts,
        Err(FirstFault::BadLine(script, line)) => {
            return Ok(ToRun::Fault(bad_line(alloc, script, line)?));
        }
        Err(FirstFault::TooLong(script)) => return Ok(ToRun::Fault(too_long(alloc, script)?)),
        Err(FirstFault::Memory) => return Err(AllocError),
    };
    if expect && let Some(bad) = first_bad_expectation(alloc, texts)? {
        return Ok(ToRun::Fault(bad_expectation(alloc, bad)?));
    }
    Ok(ToRun::Scripts(scripts))
}
