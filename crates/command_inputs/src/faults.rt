// What is printed for what the commands are given, where it is at fault.
ghost use Rattle.std.specs.Prelude.{◌≡◌, IfOk};
ghost use Rattle.input_log.specs.declared.fault.LogFault.TheVariants as log_fault;
ghost use Rattle.command_inputs.specs.Faults.{bad_settings, log_has, no_log_printed};
ghost use Rattle.command_texts.specs.Printing.{needs_scripts};

use command_texts::{Printed, bad_magic, bad_record, bad_version, fault, torn_line};
use input_log::LogFault;
use posix_terms::Limits;
use std::alloc::{AllocError, Global};

/// There are not 1 to 16 scripts.
pub fn needs_scripts(alloc: Global) -> Result<Printed, AllocError>
    ensures { IfOk result (λ printed. printed ≡ needs_scripts) }
{
    let threads = Limits::THREADS;
    let line = format!(in alloc; "needs 1 to {threads} scripts\n")?;
    fault(alloc, 2, line.as_str())
}

/// The settings of a run are not in their ranges.
pub fn bad_settings(alloc: Global) -> Result<Printed, AllocError>
    ensures { IfOk result (λ printed. printed ≡ bad_settings) }
{
    let line = "patience and door cost are 1 to 1000000, and the version of the log is 1 or 2\n";
    fault(alloc, 2, line)
}

/// A text is not a log, and has this fault. Without memory that was the fault.
pub fn no_log(alloc: Global, fault: LogFault) -> Result<Printed, AllocError>
    ensures { IfOk result (λ printed. printed ≡ no_log_printed fault) }
{
    match fault {
        LogFault::BadMagic => bad_magic(alloc),
        LogFault::BadVersion => bad_version(alloc),
        LogFault::BadRecord(place) => bad_record(alloc, place),
        LogFault::Torn(place, records) => torn(alloc, place, records),
        LogFault::Memory => Err(AllocError),
    }
}

fn torn(alloc: Global, place: usize, records: usize) -> Result<Printed, AllocError>
    ensures { IfOk result (λ printed. printed ≡ no_log_printed (log_fault.Torn place records)) }
{
    let line = torn_line(alloc, place, records)?;
    fault(alloc, 3, line.as_str())
}

/// A log has another number of threads than there are scripts.
pub fn threads_line(alloc: Global, threads: usize, scripts: usize) -> Result<Printed, AllocError>
    ensures { IfOk result (λ printed. printed ≡ log_has threads scripts) }
{
    let line = format!(in alloc; "log has {threads} threads, {scripts} scripts given\n")?;
    fault(alloc, 3, line.as_str())
}
