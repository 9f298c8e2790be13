ghost use Rattle.std.specs.Prelude.{◌≡◌, map};
ghost use Rattle.thread_scripts.specs.Calls.{without_operands, bytes_at, call_line, data_operand};
ghost use Rattle.thread_scripts.specs.Calls.{kind_among, kind_named, number_and_bytes};
ghost use Rattle.thread_scripts.specs.Calls.{number_and_flags, number_and_how, number_operand};
ghost use Rattle.thread_scripts.specs.Calls.{one_number, one_path, opening, seek, status_flags};
ghost use Rattle.thread_scripts.specs.Calls.{three_numbers, two_numbers, two_paths};
ghost use Rattle.thread_scripts.specs.Faults.{Reads};

use crate::fault::LineFault;
use crate::line::{CallLine, Data, Number};
use crate::numbers::{byte_register, number, register};
use crate::texts::{access, byte_text, flags, known_to_host, path, shutdown_how, whence};
use posix_terms::{Access, Call, CallKind, OpenFlags, SharedBytes, ShutdownHow, Whence};
use std::alloc::Global;

/// An operand that is a number: a register's or its own.
#[tactic(auto, unfolding(crate::specs::Calls::number_operand))]
pub(crate) fn number_operand(word: &[u8]) -> Result<Number, LineFault>
    ensures { Reads result (number_operand word.now) }
{
    if let Some(register) = register(word) {
        return Ok(Number::Register(register));
    }
    let value = number(word).ok_or(LineFault::Bad)?;
    Ok(Number::Value(value))
}

/// An operand that is bytes: a byte register's or its own.
#[tactic(auto, unfolding(crate::specs::Calls::data_operand))]
pub(crate) fn data_operand(alloc: Global, word: &[u8]) -> Result<Data, LineFault>
    ensures { Reads result (data_operand word.now) }
{
    if let Some(register) = byte_register(word) {
        return Ok(Data::Register(register));
    }
    Ok(Data::Text(byte_text(alloc, word)?))
}

/// The first of these calls that a word names.
fn kind_among(kinds: &[CallKind], word: &[u8]) -> Option<CallKind>
    ensures { result ≡ kind_among kinds.now word.now }
{
    for kind in kinds {
        if word == kind.word().as_bytes() {
            return Some(*kind);
        }
    }
    None
}

/// The call that a word names.
pub fn kind_named(word: &[u8]) -> Option<CallKind>
    ensures { result ≡ kind_named word.now }
{
    kind_among(&CallKind::ALL, word)
}

// Operands, by their shapes.

/// `NUMBER`
fn one_number(operands: &[&[u8]]) -> Result<Number, LineFault>
    ensures { Reads result (one_number (map (λ w. w.now) operands.now)) }
{
    let [number] = operands else {
        return Err(LineFault::Bad);
    };
    number_operand(number)
}

/// `NUMBER NUMBER`
fn two_numbers(operands: &[&[u8]]) -> Result<(Number, Number), LineFault>
    ensures { Reads result (two_numbers (map (λ w. w.now) operands.now)) }
{
    let [first, second] = operands else {
        return Err(LineFault::Bad);
    };
    let first = number_operand(first)?;
    let second = number_operand(second)?;
    Ok((first, second))
}

/// `NUMBER NUMBER NUMBER`
fn three_numbers(operands: &[&[u8]]) -> Result<(Number, Number, Number), LineFault>
    ensures { Reads result (three_numbers (map (λ w. w.now) operands.now)) }
{
    let [first, second, third] = operands else {
        return Err(LineFault::Bad);
    };
    let first = number_operand(first)?;
    let second = number_operand(second)?;
    let third = number_operand(third)?;
    Ok((first, second, third))
}

/// `NUMBER BYTES`
fn number_and_bytes(alloc: Global, operands: &[&[u8]]) -> Result<(Number, Data), LineFault>
    ensures { Reads result (number_and_bytes (map (λ w. w.now) operands.now)) }
{
    let [number, bytes] = operands else {
        return Err(LineFault::Bad);
    };
    let number = number_operand(number)?;
    let bytes = data_operand(alloc, bytes)?;
    Ok((number, bytes))
}

/// `NUMBER BYTES NUMBER`
fn bytes_at(alloc: Global, operands: &[&[u8]]) -> Result<(Number, Data, Number), LineFault>
    ensures { Reads result (bytes_at (map (λ w. w.now) operands.now)) }
{
    let [number, bytes, position] = operands else {
        return Err(LineFault::Bad);
    };
    let number = number_operand(number)?;
    let position = number_operand(position)?;
    let bytes = data_operand(alloc, bytes)?;
    Ok((number, bytes, position))
}

/// `NUMBER NUMBER WHENCE`
fn seek(operands: &[&[u8]]) -> Result<(Number, Number, Whence), LineFault>
    ensures { Reads result (seek (map (λ w. w.now) operands.now)) }
{
    let [number, offset, word] = operands else {
        return Err(LineFault::Bad);
    };
    let number = number_operand(number)?;
    let offset = number_operand(offset)?;
    let whence = whence(word).ok_or(LineFault::Bad)?;
    Ok((number, offset, whence))
}

/// `NUMBER HOW`
fn number_and_how(operands: &[&[u8]]) -> Result<(Number, ShutdownHow), LineFault>
    ensures { Reads result (number_and_how (map (λ w. w.now) operands.now)) }
{
    let [number, word] = operands else {
        return Err(LineFault::Bad);
    };
    let number = number_operand(number)?;
    let how = shutdown_how(word).ok_or(LineFault::Bad)?;
    Ok((number, how))
}

/// `NUMBER FLAG..`
fn number_and_flags(operands: &[&[u8]]) -> Result<(Number, OpenFlags), LineFault>
    ensures { Reads result (number_and_flags (map (λ w. w.now) operands.now)) }
{
    let [number, words @ ..] = operands else {
        return Err(LineFault::Bad);
    };
    let number = number_operand(number)?;
    let flags = flags(words).ok_or(LineFault::Bad)?;
    Ok((number, flags))
}

/// `PATH`
fn one_path(alloc: Global, operands: &[&[u8]]) -> Result<SharedBytes, LineFault>
    ensures { Reads result (one_path (map (λ w. w.now) operands.now)) }
{
    let [word] = operands else {
        return Err(LineFault::Bad);
    };
    path(alloc, word)
}

/// `PATH PATH`
fn two_paths(alloc: Global, operands: &[&[u8]]) -> Result<(SharedBytes, SharedBytes), LineFault>
    ensures { Reads result (two_paths (map (λ w. w.now) operands.now)) }
{
    let [first, second] = operands else {
        return Err(LineFault::Bad);
    };
    let first = path(alloc, first)?;
    let second = path(alloc, second)?;
    Ok((first, second))
}

/// `PATH ACCESS FLAG..`
fn opening(alloc: Global, operands: &[&[u8]]) -> Result<(SharedBytes, Access, OpenFlags), LineFault>
    ensures { Reads result (opening (map (λ w. w.now) operands.now)) }
{
    let [path_word, access_word, words @ ..] = operands else {
        return Err(LineFault::Bad);
    };
    let access = access(access_word).ok_or(LineFault::Bad)?;
    let flags = flags(words).ok_or(LineFault::Bad)?;
    let path = path(alloc, path_word)?;
    Ok((path, access, flags))
}

/// A call without operands.
fn without_operands(operands: &[&[u8]], call: CallLine) -> Result<CallLine, LineFault>
    ensures { Reads result (without_operands call (map (λ w. w.now) operands.now)) }
{
    if operands.is_empty() {
        Ok(call)
    } else {
        Err(LineFault::Bad)
    }
}

/// Flags that can be set later: those for opening alone are not among them.
fn status_flags(flags: OpenFlags) -> Option<OpenFlags>
    ensures { result ≡ status_flags flags }
{
    if flags.create || flags.exclusive || flags.truncate {
        None
    } else {
        Some(flags)
    }
}

/// The line of a call with these operands.
#[tactic(auto, unfolding(crate::specs::Calls::call_line))]
pub(crate) fn read_call(
    alloc: Global,
    kind: CallKind,
    operands: &[&[u8]],
) -> Result<CallLine, LineFault>
    ensures { Reads result (call_line kind (map (λ w. w.now) operands.now)) }
{
    Ok(match kind {
        CallKind::Open => {
            let (path, access, flags) = opening(alloc, operands)?;
            Call::Open {
                path,
                access,
                flags,
            }
        }
        CallKind::Close => {
            let descriptor = one_number(operands)?;
            Call::Close { descriptor }
        }
        CallKind::Read => {
            let (descriptor, count) = two_numbers(operands)?;
            Call::Read { descriptor, count }
        }
        CallKind::Write => {
            let (descriptor, bytes) = number_and_bytes(alloc, operands)?;
            Call::Write { descriptor, bytes }
        }
        CallKind::Pread => {
            let (descriptor, count, position) = three_numbers(operands)?;
            Call::Pread {
                descriptor,
                count,
                position,
            }
        }
        CallKind::Pwrite => {
            let (descriptor, bytes, position) = bytes_at(alloc, operands)?;
            Call::Pwrite {
                descriptor,
                bytes,
                position,
            }
        }
        CallKind::Lseek => {
            let (descriptor, offset, whence) = seek(operands)?;
            Call::Lseek {
                descriptor,
                offset,
                whence,
            }
        }
        CallKind::Ftruncate => {
            let (descriptor, size) = two_numbers(operands)?;
            Call::Ftruncate { descriptor, size }
        }
        CallKind::Fstat => {
            let descriptor = one_number(operands)?;
            Call::Fstat { descriptor }
        }
        CallKind::Dup => {
            let descriptor = one_number(operands)?;
            Call::Dup { descriptor }
        }
        CallKind::DupFrom => {
            let (descriptor, least) = two_numbers(operands)?;
            Call::DupFrom { descriptor, least }
        }
        CallKind::Dup2 => {
            let (descriptor, target) = two_numbers(operands)?;
            Call::Dup2 { descriptor, target }
        }
        CallKind::Getfl => {
            let descriptor = one_number(operands)?;
            Call::Getfl { descriptor }
        }
        CallKind::Setfl => {
            let (descriptor, flags) = number_and_flags(operands)?;
            let flags = status_flags(flags).ok_or(LineFault::Bad)?;
            Call::Setfl {
                descriptor,
                append: flags.append,
                nonblock: flags.nonblock,
            }
        }
        CallKind::Link => {
            let (old_path, new_path) = two_paths(alloc, operands)?;
            Call::Link { old_path, new_path }
        }
        CallKind::Unlink => {
            let path = one_path(alloc, operands)?;
            Call::Unlink { path }
        }
        CallKind::Rename => {
            let (old_path, new_path) = two_paths(alloc, operands)?;
            Call::Rename { old_path, new_path }
        }
        CallKind::Mkdir => {
            let path = one_path(alloc, operands)?;
            Call::Mkdir { path }
        }
        CallKind::Rmdir => {
            let path = one_path(alloc, operands)?;
            Call::Rmdir { path }
        }
        CallKind::Pipe => without_operands(operands, Call::Pipe)?,
        CallKind::Socketpair => without_operands(operands, Call::Socketpair)?,
        CallKind::Shutdown => {
            let (descriptor, how) = number_and_how(operands)?;
            Call::Shutdown { descriptor, how }
        }
        CallKind::HostOpen => {
            let (path, access, flags) = opening(alloc, operands)?;
            let flags = known_to_host(flags).ok_or(LineFault::Bad)?;
            Call::HostOpen {
                path,
                access,
                flags,
            }
        }
        CallKind::TcpListen => {
            let port = one_number(operands)?;
            Call::TcpListen { port }
        }
        CallKind::TcpConnect => {
            let port = one_number(operands)?;
            Call::TcpConnect { port }
        }
        CallKind::TcpAccept => {
            let descriptor = one_number(operands)?;
            Call::TcpAccept { descriptor }
        }
    })
}
