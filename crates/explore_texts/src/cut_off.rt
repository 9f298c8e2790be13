ghost use Rattle.std.specs.Prelude.{◌≡◌, ◌++◌, IfOk, OnOk, codes};
ghost use Rattle.std.specs.Fmt.{decimal};
ghost use Rattle.std.specs.List.{flat_map};
ghost use Rattle.thread_scripts.specs.Grammar.{script_of};
ghost use Rattle.command_texts.specs.Transcripts.{◌+++◌};
ghost use Rattle.explore_texts.specs.CutOffs.{cut_of, cut_text, cut_threads, if_cut, is_cut};

use command_texts::{push_number, push_word};
use expectations::is_cut_off;
use explorer::{EndedThreads, Observation};
use posix_terms::{Bytes, Row, Transcript};
use std::alloc::{AllocError, Global};
use thread_scripts::{ScriptFault, parse};

/// The threads that ended only because they had executed as many lines as a thread may, where these
/// texts were run and this was seen. An error means out of memory.
pub fn cut_of(
    alloc: Global,
    texts: &[Bytes],
    observation: &Observation,
) -> Result<Vec<usize>, AllocError>
    ensures { IfOk result (λ cut. cut.items ≡ cut_of texts.now observation.now) }
{
    cut_threads(alloc, texts, observation.seen.threads(), &observation.ended)
}

// Those of these texts, of which these rows were seen, and these threads had ended.
fn cut_threads(
    alloc: Global,
    texts: &[Bytes],
    seen: &[Transcript],
    ended: &EndedThreads,
) -> Result<Vec<usize>, AllocError>
    ensures { IfOk result (λ cut. cut.items ≡ cut_threads ended.now 0 texts.now seen.now) }
{
    let mut cut = Vec::new(alloc);
    for thread in 0..texts.len() {
        let Some(transcript) = seen.get(thread) else {
            return Ok(cut);
        };
        push_if_cut(
            &mut cut,
            ended.has(thread),
            thread,
            texts[thread].as_slice(),
            transcript.rows(),
        )?;
    }
    Ok(cut)
}

// Adds a thread that ran this text, and saw these rows, if it had ended, and did so.
fn push_if_cut(
    cut: &mut Vec<usize>,
    ended: bool,
    thread: usize,
    text: &[u8],
    rows: &[Row],
) -> Result<(), AllocError>
    ensures { OnOk result (
        cut.new.items ≡ cut.old.items ++ if_cut ended thread text.now rows.now) }
{
    if ended && is_cut(*cut.allocator(), text, rows)? {
        cut.push(thread)?;
    }
    Ok(())
}

// Whether a thread that ran this text, and ended after these rows, did.
fn is_cut(alloc: Global, text: &[u8], rows: &[Row]) -> Result<bool, AllocError>
    ensures { IfOk result (λ cut. cut ≡ is_cut (script_of text.now) rows.now) }
{
    let script = match parse(alloc, text) {
        Ok(script) => script,
        Err(ScriptFault::Memory) => return Err(AllocError),
        Err(ScriptFault::BadLine(_)) => return Ok(false),
        Err(ScriptFault::TooLong) => return Ok(false),
    };
    let Ok(cut) = is_cut_off(script, rows) else {
        return Err(AllocError);
    };
    Ok(cut)
}

// Adds what a line says of the threads that did.
pub(crate) fn push_cut(text: &mut Vec<u8>, cut: &[usize]) -> Result<(), AllocError>
    ensures { OnOk result (text.new.items ≡ text.old.items ++ cut_text cut.now) }
{
    let Some((first, others)) = cut.split_first() else {
        return Ok(());
    };
    push_word(text, " cut off ")?;
    push_number(text, *first as u64)?;
    push_others(text, others)
}

fn push_others(text: &mut Vec<u8>, others: &[usize]) -> Result<(), AllocError>
    ensures { OnOk result (text.new.items
        ≡ text.old.items ++ flat_map (λ other. codes "," +++ decimal other) others.now) }
{
    for other in others {
        push_word(text, ",")?;
        push_number(text, *other as u64)?;
    }
    Ok(())
}
