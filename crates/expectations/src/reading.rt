ghost use Rattle.std.specs.Prelude.{◌≡◌, IfOk, map};
ghost use Rattle.expectations.specs.Words.{count_pattern, data_pattern, done_pattern};
ghost use Rattle.expectations.specs.Words.{fail_pattern, number_pattern, pair_pattern};
ghost use Rattle.expectations.specs.Words.{excluded_of, pattern_by, stat_pattern, wanted_of};

use crate::operands::{data, error, kind, signed, size};
use crate::pattern::Pattern;
use crate::wanted::Wanted;
use std::alloc::{AllocError, Global};

// `count N`
fn count_pattern(operands: &[&[u8]]) -> Option<Pattern>
    ensures { result ≡ count_pattern (map (λ w. w.now) operands.now) }
{
    let [count] = operands else {
        return None;
    };
    let count = size(count)?;
    Some(Pattern::Count(count))
}

// `data HEX`
fn data_pattern(alloc: Global, operands: &[&[u8]]) -> Result<Option<Pattern>, AllocError>
    ensures { IfOk result (λ pattern. pattern ≡ data_pattern (map (λ w. w.now) operands.now)) }
{
    let [bytes] = operands else {
        return Ok(None);
    };
    let Some(bytes) = data(alloc, bytes)? else {
        return Ok(None);
    };
    Ok(Some(Pattern::Data(bytes)))
}

// `number N`
fn number_pattern(operands: &[&[u8]]) -> Option<Pattern>
    ensures { result ≡ number_pattern (map (λ w. w.now) operands.now) }
{
    let [number] = operands else {
        return None;
    };
    let number = signed(number)?;
    Some(Pattern::Number(number))
}

// `pair N N`
fn pair_pattern(operands: &[&[u8]]) -> Option<Pattern>
    ensures { result ≡ pair_pattern (map (λ w. w.now) operands.now) }
{
    let [first, second] = operands else {
        return None;
    };
    let first = signed(first)?;
    let second = signed(second)?;
    Some(Pattern::Pair(first, second))
}

// `stat KIND N N`
fn stat_pattern(operands: &[&[u8]]) -> Option<Pattern>
    ensures { result ≡ stat_pattern (map (λ w. w.now) operands.now) }
{
    let [kind_word, number, links] = operands else {
        return None;
    };
    let kind = kind(kind_word)?;
    let number = size(number)?;
    let links = size(links)?;
    Some(Pattern::Stat {
        kind,
        number,
        links,
    })
}

// `done`
fn done_pattern(operands: &[&[u8]]) -> Option<Pattern>
    ensures { result ≡ done_pattern (map (λ w. w.now) operands.now) }
{
    operands.is_empty().then_some(Pattern::Done)
}

// `fail NAME`
fn fail_pattern(operands: &[&[u8]]) -> Option<Pattern>
    ensures { result ≡ fail_pattern (map (λ w. w.now) operands.now) }
{
    let [name] = operands else {
        return None;
    };
    let error = error(name)?;
    Some(Pattern::Fail(error))
}

// The pattern of a word with these operands.
#[tactic(auto, unfolding(crate::specs::Words::pattern_by))]
fn pattern_by(alloc: Global, word: &[u8], operands: &[&[u8]]) -> Result<Option<Pattern>, AllocError>
    ensures { IfOk result (λ pattern.
        pattern ≡ pattern_by word.now (map (λ w. w.now) operands.now)) }
{
    if word == b"count".as_slice() {
        Ok(count_pattern(operands))
    } else if word == b"data".as_slice() {
        data_pattern(alloc, operands)
    } else if word == b"number".as_slice() {
        Ok(number_pattern(operands))
    } else if word == b"pair".as_slice() {
        Ok(pair_pattern(operands))
    } else if word == b"stat".as_slice() {
        Ok(stat_pattern(operands))
    } else if word == b"done".as_slice() {
        Ok(done_pattern(operands))
    } else if word == b"fail".as_slice() {
        Ok(fail_pattern(operands))
    } else {
        Ok(None)
    }
}

// The pattern of these words after `not`: there `fail` alone is any failure.
fn excluded_of(alloc: Global, words: &[&[u8]]) -> Result<Option<Pattern>, AllocError>
    ensures { IfOk result (λ pattern. pattern ≡ excluded_of (map (λ w. w.now) words.now)) }
{
    match words {
        [] => Ok(None),
        [word] if *word == b"fail".as_slice() => Ok(Some(Pattern::Fail(None))),
        [word, operands @ ..] => pattern_by(alloc, word, operands),
    }
}

// What these words want.
pub fn wanted_of(alloc: Global, words: &[&[u8]]) -> Result<Option<Wanted>, AllocError>
    ensures { IfOk result (λ wanted. wanted ≡ wanted_of (map (λ w. w.now) words.now)) }
{
    let [word, words @ ..] = words else {
        return Ok(None);
    };
    if *word == b"not".as_slice() {
        let pattern = excluded_of(alloc, words)?;
        return Ok(pattern.map(|pattern| Wanted::Not(pattern)));
    }
    let pattern = pattern_by(alloc, word, words)?;
    Ok(pattern.map(|pattern| Wanted::Match(pattern)))
}
