// Whether calls that are blocked for good are expected to be interrupted.
ghost use Rattle.std.specs.Prelude.{◌≡◌, IfOk};
ghost use Rattle.std.specs.List.{list_any};
ghost use Rattle.explore_texts.specs.Waits.{are_unexpected, expects_interrupt};
ghost use Rattle.explore_texts.specs.Waits.{interrupt_expected, is_interrupt};
ghost use Rattle.thread_scripts.specs.Words.{lines_of};

use answered_calls::BlockedLine;
use expectations::{Expectation, Pattern, Wanted, expectations_of};
use posix_terms::{Bytes, Errno};
use std::alloc::{AllocError, Global};

// Whether calls are blocked for good at these lines, and none of them is expected to be interrupted.
pub(crate) fn are_unexpected(
    alloc: Global,
    texts: &[Bytes],
    lines: &[BlockedLine],
) -> Result<bool, AllocError>
    ensures { IfOk result (λ are. are ≡ are_unexpected texts.now lines.now) }
{
    for line in lines {
        if interrupt_expected(alloc, texts, *line)? {
            return Ok(false);
        }
    }
    Ok(!lines.is_empty())
}

// Whether `fail EINTR` is expected of the call on this line.
fn interrupt_expected(alloc: Global, texts: &[Bytes], line: BlockedLine) -> Result<bool, AllocError>
    ensures { IfOk result (λ is. is ≡ interrupt_expected texts.now line) }
{
    match texts.get(line.thread) {
        Some(text) => expects_interrupt(alloc, text.as_slice(), line.line),
        None => Ok(false),
    }
}

// Whether a text expects it of the call on this line.
#[tactic(auto, using(crate::proofs::Interrupts::good_interrupts))]
fn expects_interrupt(alloc: Global, text: &[u8], line: usize) -> Result<bool, AllocError>
    ensures { IfOk result (λ is. is ≡ expects_interrupt line (lines_of text.now)) }
{
    // All that the texts expect is good: only memory can have run out.
    let Ok(expectations) = expectations_of(alloc, text) else {
        return Err(AllocError);
    };
    Ok(has_interrupt(&expectations, line))
}

// Whether one of these expects it.
fn has_interrupt(expectations: &[Expectation], line: usize) -> bool
    ensures { result ≡ list_any (is_interrupt line) expectations.now }
{
    for expectation in expectations {
        if is_interrupt(expectation, line) {
            return true;
        }
    }
    false
}

// Whether it expects `fail EINTR` of the call on this line.
fn is_interrupt(expectation: &Expectation, line: usize) -> bool
    ensures { result ≡ is_interrupt line expectation.now }
{
    expectation.call == line
        && matches!(
            expectation.wanted,
            Wanted::Match(Pattern::Fail(Some(Errno::EINTR)))
        )
}
