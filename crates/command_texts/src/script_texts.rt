ghost use Rattle.std.specs.Prelude.{◌≡◌, MatchResult, IfOk};
ghost use Rattle.thread_scripts.specs.Faults.{bad_line, too_long};
ghost use Rattle.thread_scripts.specs.Grammar.{script_of};
ghost use Rattle.call_machine.specs.Plain.{counts_fit};
ghost use Rattle.command_texts.specs.FirstFaults.{IsFirst, IsScript};
ghost use Rattle.command_texts.specs.Printing.{script_fault};
ghost use Rattle.command_texts.specs.Reading.{scripts_from};

use crate::first_fault::FirstFault;
use crate::printed::{Printed, fault};
use posix_terms::{Bytes, Limits};
use std::alloc::{AllocError, Global};
use thread_scripts::{Script, ScriptFault, parse};

/// Whether so many scripts can run together.
pub fn fits(scripts: usize) -> bool
    ensures { result ≡ counts_fit scripts scripts }
{
    1 <= scripts && scripts <= Limits::THREADS
}

/// The scripts of texts, or the first fault.
pub fn scripts(alloc: Global, texts: &[Bytes]) -> Result<Vec<Script>, FirstFault>
    ensures { MatchResult result (λ scripts. scripts_from 0 texts.now ≡ Ok scripts.items)
        (λ fault. IsFirst fault (scripts_from 0 texts.now)) }
{
    let mut scripts = Vec::new(alloc);
    for i in 0..texts.len() {
        scripts.push(script(alloc, i, texts[i].as_slice())?)?;
    }
    Ok(scripts)
}

// The script of this number.
fn script(alloc: Global, i: usize, text: &[u8]) -> Result<Script, FirstFault>
    ensures { IsScript i result (script_of text.now) }
{
    match parse(alloc, text) {
        Ok(script) => Ok(script),
        Err(ScriptFault::BadLine(line)) => Err(FirstFault::BadLine(i, line)),
        Err(ScriptFault::TooLong) => Err(FirstFault::TooLong(i)),
        Err(ScriptFault::Memory) => Err(FirstFault::Memory),
    }
}

/// This line of this script is bad.
pub fn bad_line(alloc: Global, script: usize, line: usize) -> Result<Printed, AllocError>
    ensures { IfOk result (λ printed. printed ≡ script_fault script (bad_line line)) }
{
    let text = format!(in alloc; "script {script}: bad line {line}\n")?;
    fault(alloc, 3, text.as_str())
}

/// This script has too many lines.
pub fn too_long(alloc: Global, script: usize) -> Result<Printed, AllocError>
    ensures { IfOk result (λ printed. printed ≡ script_fault script too_long) }
{
    let text = format!(in alloc; "script {script}: too long\n")?;
    fault(alloc, 3, text.as_str())
}
