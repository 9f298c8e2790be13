ghost use Rattle.std.specs.Prelude.{◌≡◌, map, option_and_then, option_map};
ghost use Rattle.thread_scripts.specs.Faults.{Reads};
ghost use Rattle.thread_scripts.specs.Lines.{add_line, end_line, jump_if_failed_line};
ghost use Rattle.thread_scripts.specs.Lines.{jump_if_zero_line, jump_line, label_line, line_with};
ghost use Rattle.thread_scripts.specs.Lines.{set_bytes_line, set_line, word_named, words_say};
ghost use Rattle.thread_scripts.specs.Lines.{work_line};

use crate::calls::{data_operand, kind_named, number_operand, read_call};
use crate::fault::LineFault;
use crate::labels::{Label, place_of};
use crate::line::Line;
use crate::numbers::{byte_register, natural, register};
use posix_terms::{CallKind, Limits};
use std::alloc::Global;

/// What the first word of a line asks for.
#[derive(Clone, Copy)]
pub(crate) enum Word {
    Work,
    End,
    Set,
    Add,
    SetBytes,
    Label,
    Jump,
    JumpIfZero,
    JumpIfFailed,
    Call(CallKind),
}

fn word_named(text: &[u8]) -> Option<Word>
    ensures { result ≡ word_named text.now }
{
    if text == b"work".as_slice() {
        Some(Word::Work)
    } else if text == b"end".as_slice() {
        Some(Word::End)
    } else if text == b"set".as_slice() {
        Some(Word::Set)
    } else if text == b"add".as_slice() {
        Some(Word::Add)
    } else if text == b"setb".as_slice() {
        Some(Word::SetBytes)
    } else if text == b"label".as_slice() {
        Some(Word::Label)
    } else if text == b"jump".as_slice() {
        Some(Word::Jump)
    } else if text == b"jzero".as_slice() {
        Some(Word::JumpIfZero)
    } else if text == b"jfail".as_slice() {
        Some(Word::JumpIfFailed)
    } else {
        Some(Word::Call(kind_named(text)?))
    }
}

fn read_work(operands: &[&[u8]]) -> Result<Line, LineFault>
    ensures { Reads result (work_line (map (λ w. w.now) operands.now)) }
{
    let [amount] = operands else {
        return Err(LineFault::Bad);
    };
    let amount = natural(amount, Limits::WORK).ok_or(LineFault::Bad)?;
    Ok(Line::Work(amount))
}

fn read_end(operands: &[&[u8]]) -> Result<Line, LineFault>
    ensures { Reads result (end_line (map (λ w. w.now) operands.now)) }
{
    let [] = operands else {
        return Err(LineFault::Bad);
    };
    Ok(Line::End)
}

fn read_set(operands: &[&[u8]]) -> Result<Line, LineFault>
    ensures { Reads result (set_line (map (λ w. w.now) operands.now)) }
{
    let [name, value] = operands else {
        return Err(LineFault::Bad);
    };
    let register = register(name).ok_or(LineFault::Bad)?;
    let value = number_operand(value)?;
    Ok(Line::Set { register, value })
}

fn read_add(operands: &[&[u8]]) -> Result<Line, LineFault>
    ensures { Reads result (add_line (map (λ w. w.now) operands.now)) }
{
    let [name, value] = operands else {
        return Err(LineFault::Bad);
    };
    let register = register(name).ok_or(LineFault::Bad)?;
    let value = number_operand(value)?;
    Ok(Line::Add { register, value })
}

fn read_set_bytes(alloc: Global, operands: &[&[u8]]) -> Result<Line, LineFault>
    ensures { Reads result (set_bytes_line (map (λ w. w.now) operands.now)) }
{
    let [name, value] = operands else {
        return Err(LineFault::Bad);
    };
    let register = byte_register(name).ok_or(LineFault::Bad)?;
    let value = data_operand(alloc, value)?;
    Ok(Line::SetBytes { register, value })
}

fn read_label(labels: &[Label], place: usize, operands: &[&[u8]]) -> Result<Line, LineFault>
    ensures { Reads result (label_line (map (λ l. (l.name.now, l.place)) labels.now) place
        (map (λ w. w.now) operands.now)) }
{
    let [name] = operands else {
        return Err(LineFault::Bad);
    };
    let first = place_of(labels, name).ok_or(LineFault::Bad)?;
    if first != place {
        return Err(LineFault::Bad);
    }
    Ok(Line::Label)
}

fn read_jump(labels: &[Label], operands: &[&[u8]]) -> Result<Line, LineFault>
    ensures { Reads result (jump_line (map (λ l. (l.name.now, l.place)) labels.now)
        (map (λ w. w.now) operands.now)) }
{
    let [name] = operands else {
        return Err(LineFault::Bad);
    };
    let place = place_of(labels, name).ok_or(LineFault::Bad)?;
    Ok(Line::Jump { place })
}

fn read_jump_if_zero(labels: &[Label], operands: &[&[u8]]) -> Result<Line, LineFault>
    ensures { Reads result (jump_if_zero_line (map (λ l. (l.name.now, l.place)) labels.now)
        (map (λ w. w.now) operands.now)) }
{
    let [word, name] = operands else {
        return Err(LineFault::Bad);
    };
    let register = register(word).ok_or(LineFault::Bad)?;
    let place = place_of(labels, name).ok_or(LineFault::Bad)?;
    Ok(Line::JumpIfZero { register, place })
}

fn read_jump_if_failed(labels: &[Label], operands: &[&[u8]]) -> Result<Line, LineFault>
    ensures { Reads result (jump_if_failed_line (map (λ l. (l.name.now, l.place)) labels.now)
        (map (λ w. w.now) operands.now)) }
{
    let [name] = operands else {
        return Err(LineFault::Bad);
    };
    let place = place_of(labels, name).ok_or(LineFault::Bad)?;
    Ok(Line::JumpIfFailed { place })
}

/// The line of this word with these operands.
#[tactic(auto, unfolding(crate::specs::Lines::line_with))]
fn read_operands(
    alloc: Global,
    labels: &[Label],
    place: usize,
    word: Word,
    operands: &[&[u8]],
) -> Result<Line, LineFault>
    ensures { Reads result (line_with (map (λ l. (l.name.now, l.place)) labels.now) place word
        (map (λ w. w.now) operands.now)) }
{
    match word {
        Word::Work => read_work(operands),
        Word::End => read_end(operands),
        Word::Set => read_set(operands),
        Word::Add => read_add(operands),
        Word::SetBytes => read_set_bytes(alloc, operands),
        Word::Label => read_label(labels, place, operands),
        Word::Jump => read_jump(labels, operands),
        Word::JumpIfZero => read_jump_if_zero(labels, operands),
        Word::JumpIfFailed => read_jump_if_failed(labels, operands),
        Word::Call(kind) => Ok(Line::Call(read_call(alloc, kind, operands)?)),
    }
}

/// What words say: nothing where there are none.
fn read_words(
    alloc: Global,
    labels: &[Label],
    place: usize,
    words: &[&[u8]],
) -> Result<Option<Line>, LineFault>
    ensures { Reads result (words_say (map (λ l. (l.name.now, l.place)) labels.now) place
        (map (λ w. w.now) words.now)) }
{
    let [first, operands @ ..] = words else {
        return Ok(None);
    };
    let word = word_named(first).ok_or(LineFault::Bad)?;
    let line = read_operands(alloc, labels, place, word, operands)?;
    Ok(Some(line))
}

/// What the words of a line say, if it has good ones.
pub(crate) fn read_line(
    alloc: Global,
    labels: &[Label],
    place: usize,
    words: &Option<Vec<&[u8]>>,
) -> Result<Option<Line>, LineFault>
    ensures { Reads result (option_and_then
        (words_say (map (λ l. (l.name.now, l.place)) labels.now) place)
        (option_map (λ v. map (λ w. w.now) v.items) words.now)) }
{
    match words {
        None => Err(LineFault::Bad),
        Some(words) => read_words(alloc, labels, place, words),
    }
}
