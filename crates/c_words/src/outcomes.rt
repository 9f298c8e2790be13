ghost use Rattle.std.specs.Prelude.{◌≡◌, ◌<◌, Err, IfErr, IfOk, Some, length, take};
ghost use Rattle.c_words.specs.Faults.{IsUnsaid};
ghost use Rattle.c_words.specs.Words.{bytes_that_came, outcome_of, outcome_words};
ghost use Rattle.c_words.specs.declared.fault.LibraryFault.TheVariants as fault;

use crate::fault::LibraryFault;
use crate::fronts::put_front;
use crate::words::OutcomeWords;
use posix_terms::{Bytes, Errno, Outcome};
use std::alloc::Global;

/// The outcome that C says, with the bytes of a read.
pub fn outcome_of(
    alloc: Global,
    words: &OutcomeWords,
    bytes: &[u8],
) -> Result<Outcome, LibraryFault>
    ensures ok { IfOk result (λ o. outcome_of words.now bytes.now ≡ Some o) }
    ensures refused { IfErr result
        (IsUnsaid fault.NoAnswer (outcome_of words.now bytes.now)) }
    ensures memory { result ≡ Err fault.NoMemory → words.now.error ≡ 0 }
{
    if words.error == 0 {
        return Ok(Outcome::Ok {
            value: words.value,
            bytes: Bytes::from_slice(alloc, bytes)?,
        });
    }
    let Ok(code) = u8::try_from(words.error) else {
        return Err(LibraryFault::NoAnswer);
    };
    match Errno::from_code(code) {
        Some(error) => Ok(Outcome::Fail(error)),
        None => Err(LibraryFault::NoAnswer),
    }
}

/// An outcome as C reads it, with its bytes at the front of `buffer`. Doors are made up.
pub fn outcome_words(outcome: &Outcome, buffer: &mut [u8]) -> Result<OutcomeWords, LibraryFault>
    ensures words { IfOk result (λ words. words ≡ outcome_words outcome.now) }
    ensures bytes { IfOk result (λ words. take (length (bytes_that_came outcome.now)) buffer.new
        ≡ bytes_that_came outcome.now) }
    ensures refused { IfErr result (λ f. (f ≡ fault.NoRoom)
        × (length buffer.old < length (bytes_that_came outcome.now))) }
{
    let blank = OutcomeWords {
        error: 0,
        value: 0,
        length: 0,
        back: 0,
        opened: 0,
    };
    match outcome {
        Outcome::Ok { value, bytes } => {
            let bytes = bytes.as_slice();
            if bytes.len() > buffer.len() {
                return Err(LibraryFault::NoRoom);
            }
            Ok(OutcomeWords {
                value: *value,
                length: put_front(bytes, buffer),
                ..blank
            })
        }
        Outcome::Fail(error) => Ok(OutcomeWords {
            error: u32::from(error.code()),
            ..blank
        }),
    }
}
