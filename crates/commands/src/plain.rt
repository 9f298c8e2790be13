ghost use Rattle.std.specs.Prelude.{◌≡◌, length, map, IfOk, true};
ghost use Rattle.call_machine.specs.Plain.{counts_fit};
ghost use Rattle.machine.specs.Starting.{are_settings};
ghost use Rattle.command_texts.specs.Printing.{Prints};
ghost use Rattle.commands.specs.Plains.{PlainPrints, RunPrints, TextsPrint, inputs_of};

use call_machine::{PlainFault, WatchesRun, plain_run_watched};
use command_inputs::{
    RunOptions, SourceTexts, ToRun, bad_settings, no_outcomes, run_shown, source_texts, to_run,
};
use command_texts::{Printed, Source, TextReader, no_memory, print};
use posix_terms::{Bytes, Settings};
use std::alloc::{AllocError, Global};
use std::io;
use std::io::Write;
use thread_scripts::Script;

/// `detio plain`: runs the scripts on the plain schedule and prints their transcripts, in the view
/// that is asked, and the first reply that is not as its script expects if that is asked too; or
/// one line for the first fault; the answer is the exit status. Where there is no
/// memory, a script cannot be read or the output cannot be written, that is the fault. `watch` is
/// shown how far the run has come, until something is printed. An error is one of the writer
/// `errors`.
pub fn plain_over<R: TextReader + Drop, V: WatchesRun, W: Write, E: Write>(
    alloc: Global,
    settings: Settings,
    options: RunOptions,
    sources: Vec<Source<'_, R>>,
    watch: &mut V,
    output: &mut W,
    errors: &mut E,
) -> io::Result<u8>
    ensures { IfOk result (λ status.
        Prints
        (PlainPrints settings options
        (map (λ s. (s.path.now, R.remaining s.reader)) sources.entry.items))
        status (W.contents output.old) (W.contents output.new)
        (E.contents errors.old) (E.contents errors.new)) }
{
    let printed = plain_printed(alloc, settings, options, sources, watch);
    watch.ended();
    match printed {
        Ok(printed) => print(&printed, output, errors),
        Err(AllocError) => no_memory(errors),
    }
}

// What is to be printed.
fn plain_printed<R: TextReader + Drop, V: WatchesRun>(
    alloc: Global,
    settings: Settings,
    options: RunOptions,
    sources: Vec<Source<'_, R>>,
    watch: &mut V,
) -> Result<Printed, AllocError>
    ensures { IfOk result (
        PlainPrints settings options
        (map (λ s. (s.path.now, R.remaining s.reader)) sources.entry.items)) }
{
    match source_texts(alloc, sources)? {
        SourceTexts::Read(texts) => texts_printed(alloc, settings, options, &texts, watch),
        SourceTexts::Fault(printed) => Ok(printed),
    }
}

// What is to be printed for texts that were read.
fn texts_printed<V: WatchesRun>(
    alloc: Global,
    settings: Settings,
    options: RunOptions,
    texts: &[Bytes],
    watch: &mut V,
) -> Result<Printed, AllocError>
    requires { counts_fit (length texts.now) (length texts.now) ≡ true }
    ensures { IfOk result (TextsPrint settings options texts.now) }
{
    match to_run(alloc, options.expect, texts)? {
        ToRun::Scripts(scripts) => scripts_run(alloc, settings, options, texts, scripts, watch),
        ToRun::Fault(printed) => Ok(printed),
    }
}

// What is to be printed for the run of the scripts of these texts.
fn scripts_run<V: WatchesRun>(
    alloc: Global,
    settings: Settings,
    options: RunOptions,
    texts: &[Bytes],
    scripts: Vec<Script>,
    watch: &mut V,
) -> Result<Printed, AllocError>
    requires { counts_fit (length scripts.items) (length scripts.items) ≡ true }
    ensures { IfOk result (
        RunPrints (are_settings settings) options texts.now (inputs_of settings scripts.items)) }
{
    let outcomes = no_outcomes(alloc, scripts.len())?;
    match plain_run_watched(alloc, scripts, outcomes, settings, watch) {
        Ok(plain) => {
            let rows = plain.history.rows();
            run_shown(
                alloc,
                options,
                texts,
                &plain.transcripts,
                rows,
                None,
                plain.stop,
            )
        }
        Err(PlainFault::Memory) => Err(AllocError),
        Err(PlainFault::Threads) => unreachable!(),
        Err(PlainFault::Settings) => bad_settings(alloc),
    }
}
