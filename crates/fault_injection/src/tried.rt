ghost use Rattle.std.specs.Prelude.{◌≡◌, IfOk, filter, map, nat_lt};
ghost use Rattle.fault_injection.specs.Tried.{errors_for, errors_of, failures, is_failure};
ghost use Rattle.fault_injection.specs.Tried.{is_other, is_short, read_errors, short_counts};
ghost use Rattle.fault_injection.specs.Tried.{short_successes, tried, write_errors};
ghost use Rattle.fault_injection.specs.declared.injected.Injected.TheVariants as injected;

use crate::cases::Choice;
use crate::injected::Injected;
use posix_terms::{Errno, Given, ObjectKind, OutKind, Outcome};
use std::alloc::{AllocError, Global};

/// The errors that a request of this kind can meet at a host, where a read or a write goes by an
/// object of this kind. Of those of its call in POSIX.1-2017 they are the ones that `host_doors`
/// gives by name and a script can come to; and `EIO`, which it gives for every other. A read or a
/// write of a host file meets no error of a connection. It does not fail with `EAGAIN`, since it
/// waits at the host. A host file may be a named pipe, so a write to it can fail with `EPIPE`.
pub fn errors_of(kind: OutKind, object: Option<ObjectKind>) -> &'static [Errno]
    ensures { result.now ≡ errors_of kind object }
{
    match kind {
        OutKind::Open => &[
            Errno::ENOENT,
            Errno::EACCES,
            Errno::EINTR,
            Errno::EINVAL,
            Errno::EIO,
        ],
        OutKind::Read => read_errors(object),
        OutKind::Write => write_errors(object),
        OutKind::Seek => &[Errno::EINVAL, Errno::EIO],
        OutKind::Listen => &[Errno::EADDRINUSE, Errno::EACCES, Errno::EINVAL, Errno::EIO],
        OutKind::Connect => &[
            Errno::ECONNREFUSED,
            Errno::ECONNRESET,
            Errno::ETIMEDOUT,
            Errno::EADDRINUSE,
            Errno::EACCES,
            Errno::EINTR,
            Errno::EINVAL,
            Errno::EIO,
        ],
        OutKind::Accept => &[Errno::EAGAIN, Errno::EINTR, Errno::EIO],
        OutKind::Shutdown => &[Errno::EIO],
        OutKind::Close => &[Errno::EINTR, Errno::EIO],
    }
}

// Those that a read can meet.
fn read_errors(object: Option<ObjectKind>) -> &'static [Errno]
    ensures { result.now ≡ read_errors object }
{
    match object {
        Some(ObjectKind::Stream) => &[
            Errno::EAGAIN,
            Errno::EINTR,
            Errno::ECONNRESET,
            Errno::ETIMEDOUT,
            Errno::EIO,
        ],
        _ => &[Errno::EINTR, Errno::EIO],
    }
}

// Those that a write can meet.
fn write_errors(object: Option<ObjectKind>) -> &'static [Errno]
    ensures { result.now ≡ write_errors object }
{
    match object {
        Some(ObjectKind::Stream) => &[
            Errno::EAGAIN,
            Errno::EINTR,
            Errno::EPIPE,
            Errno::ECONNRESET,
            Errno::EIO,
        ],
        _ => &[Errno::EINTR, Errno::EPIPE, Errno::EIO],
    }
}

/// The counts that are tried in place of this one: none, one, half and all but one, each that is
/// less than it, once, from the least on.
pub fn short_counts(alloc: Global, count: u64) -> Result<Vec<u64>, AllocError>
    ensures { IfOk result (λ short. short.items ≡ short_counts count) }
{
    let counts = [0, 1, count / 2, count.saturating_sub(1)];
    let mut short = below(alloc, &counts, count)?;
    short.dedup();
    Ok(short)
}

// Those of these numbers that are below a bound.
fn below(alloc: Global, numbers: &[u64], bound: u64) -> Result<Vec<u64>, AllocError>
    ensures { IfOk result (λ below. below.items ≡ filter (λ n. nat_lt n bound) numbers.now) }
{
    numbers
        .iter()
        .copied()
        .filter(|n| *n < bound)
        .collect(alloc)
}

// What is tried in place of an outcome, where a read or a write goes by this.
pub(crate) fn tried(
    alloc: Global,
    choice: Choice<'_>,
    object: Option<ObjectKind>,
    given: &Given,
) -> Result<Vec<Injected>, AllocError>
    ensures { IfOk result (λ all. all.items ≡ tried choice.entry object given.now) }
{
    let errors = errors_for(choice, given.kind, object);
    let mut all = failures(alloc, errors, &given.outcome)?;
    if choice.short {
        let short = short_successes(alloc, given.kind, &given.outcome)?;
        all.extend_from_slice(short.as_slice())?;
    }
    Ok(all)
}

// The errors that are named, or else those that the request can meet.
fn errors_for<'a>(choice: Choice<'a>, kind: OutKind, object: Option<ObjectKind>) -> &'a [Errno]
    ensures { result.now ≡ errors_for choice.entry kind object }
{
    match choice.errors {
        Some(errors) => errors,
        None => errors_of(kind, object),
    }
}

// Each of these failures that is not the outcome itself.
fn failures(alloc: Global, errors: &[Errno], outcome: &Outcome) -> Result<Vec<Injected>, AllocError>
    ensures { IfOk result (λ injected. injected.items ≡ failures errors.now outcome.now) }
{
    let mut injected = Vec::new(alloc);
    for error in errors {
        if !is_failure(outcome, *error) {
            injected.push(Injected::Fail(*error))?;
        }
    }
    Ok(injected)
}

#[tactic(auto, unfolding(crate::specs::Tried::is_failure))]
fn is_failure(outcome: &Outcome, error: Errno) -> bool
    ensures { result ≡ is_failure outcome.now error }
{
    match outcome {
        Outcome::Ok { .. } => false,
        Outcome::Fail(other) => other.code() == error.code(),
    }
}

// The short counts in place of a read or a write that is a success.
fn short_successes(
    alloc: Global,
    kind: OutKind,
    outcome: &Outcome,
) -> Result<Vec<Injected>, AllocError>
    ensures { IfOk result (λ injected. injected.items ≡ short_successes kind outcome.now) }
{
    match (kind, outcome) {
        (OutKind::Read | OutKind::Write, Outcome::Ok { value, .. }) => shorter(alloc, *value),
        _ => Ok(Vec::new(alloc)),
    }
}

// The short counts in place of this one.
fn shorter(alloc: Global, count: u64) -> Result<Vec<Injected>, AllocError>
    ensures { IfOk result (λ shorter. shorter.items ≡ map injected.Short (short_counts count)) }
{
    let mut shorter = Vec::new(alloc);
    for short in short_counts(alloc, count)?.as_slice() {
        shorter.push(Injected::Short(*short))?;
    }
    Ok(shorter)
}

/// Whether this differs from the outcome that it replaces: it is a failure that the outcome is not,
/// or fewer bytes than a read or a write brought.
pub fn is_other(given: &Given, injected: Injected) -> bool
    ensures { result ≡ is_other given.now injected }
{
    match injected {
        Injected::Fail(error) => !is_failure(&given.outcome, error),
        Injected::Short(count) => is_short(given.kind, &given.outcome, count),
    }
}

fn is_short(kind: OutKind, outcome: &Outcome, count: u64) -> bool
    ensures { result ≡ is_short kind outcome.now count }
{
    match (kind, outcome) {
        (OutKind::Read | OutKind::Write, Outcome::Ok { value, .. }) => count < *value,
        _ => false,
    }
}
