ghost use Rattle.std.specs.Prelude.{◌≡◌, IfOk, codes, decimal, string_bytes};
ghost use Rattle.std.specs.Fmt.{signed_decimal};
ghost use Rattle.posix_terms.specs.Errors.{name_of};
ghost use Rattle.posix_terms.specs.Replies.{kind_code};
ghost use Rattle.expectations.specs.Printing.{data_word, operand_word, pattern_text, wanted_text};

use crate::pattern::Pattern;
use crate::wanted::Wanted;
use posix_terms::{Bytes, Errno, ObjectKind, errno_name};
use std::alloc::{AllocError, Global};

// The word of an operand, by its type.

fn any(alloc: Global) -> Result<String, AllocError>
    ensures { IfOk result (λ word. string_bytes word ≡ codes "_") }
{
    String::from_str(alloc, "_")
}

fn size_word(alloc: Global, size: Option<u64>) -> Result<String, AllocError>
    ensures { IfOk result (λ word. string_bytes word ≡ operand_word decimal size) }
{
    match size {
        Some(size) => format!(in alloc; "{size}"),
        None => any(alloc),
    }
}

fn signed_word(alloc: Global, number: Option<i64>) -> Result<String, AllocError>
    ensures { IfOk result (λ word. string_bytes word ≡ operand_word signed_decimal number) }
{
    match number {
        Some(number) => format!(in alloc; "{number}"),
        None => any(alloc),
    }
}

fn data_word(alloc: Global, bytes: &Option<Bytes>) -> Result<String, AllocError>
    ensures { IfOk result (λ word. string_bytes word ≡ operand_word data_word bytes.now) }
{
    match bytes {
        Some(bytes) if bytes.as_slice().is_empty() => String::from_str(alloc, "-"),
        Some(bytes) => hex::encode(alloc, bytes.as_slice()),
        None => any(alloc),
    }
}

fn kind_word(alloc: Global, kind: Option<ObjectKind>) -> Result<String, AllocError>
    ensures { IfOk result (λ word.
        string_bytes word ≡ operand_word (λ kind. decimal (kind_code kind)) kind) }
{
    size_word(alloc, kind.map(|kind| u64::from(kind.code())))
}

fn error_word(alloc: Global, error: Option<Errno>) -> Result<String, AllocError>
    ensures { IfOk result (λ word. string_bytes word ≡ operand_word name_of error) }
{
    match error {
        Some(error) => String::from_str(alloc, errno_name(error)),
        None => any(alloc),
    }
}

impl Pattern {
    // The words of this pattern: `_` stands for an operand that may be any.
    #[tactic(auto, unfolding(crate::specs::Printing::pattern_words))]
    fn text(&self, alloc: Global) -> Result<String, AllocError>
        ensures { IfOk result (λ text. string_bytes text ≡ pattern_text self.now) }
    {
        match self {
            Pattern::Count(count) => {
                let count = size_word(alloc, *count)?;
                format!(in alloc; "count {count}")
            }
            Pattern::Data(bytes) => {
                let bytes = data_word(alloc, bytes)?;
                format!(in alloc; "data {bytes}")
            }
            Pattern::Number(number) => {
                let number = signed_word(alloc, *number)?;
                format!(in alloc; "number {number}")
            }
            Pattern::Pair(first, second) => {
                let first = signed_word(alloc, *first)?;
                let second = signed_word(alloc, *second)?;
                format!(in alloc; "pair {first} {second}")
            }
            Pattern::Stat {
                kind,
                number,
                links,
            } => {
                let kind = kind_word(alloc, *kind)?;
                let number = size_word(alloc, *number)?;
                let links = size_word(alloc, *links)?;
                format!(in alloc; "stat {kind} {number} {links}")
            }
            Pattern::Done => String::from_str(alloc, "done"),
            Pattern::Fail(error) => {
                let error = error_word(alloc, *error)?;
                format!(in alloc; "fail {error}")
            }
        }
    }
}

impl Wanted {
    /// The words of an expectation that wants this: `_` stands for an operand that may be any.
    #[tactic(auto, unfolding(crate::specs::Printing::wanted_words, crate::specs::Printing::excluded_words, crate::specs::Printing::pattern_words))]
    pub fn text(&self, alloc: Global) -> Result<String, AllocError>
        ensures { IfOk result (λ text. string_bytes text ≡ wanted_text self.now) }
    {
        match self {
            Wanted::Match(pattern) => pattern.text(alloc),
            Wanted::Not(Pattern::Fail(None)) => String::from_str(alloc, "not fail"),
            Wanted::Not(pattern) => {
                let excluded = pattern.text(alloc)?;
                format!(in alloc; "not {excluded}")
            }
        }
    }
}
