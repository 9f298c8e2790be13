ghost use Rattle.std.specs.Prelude.{◌≡◌, ℕ, List, true, false, Some, Err, IfErr, IfOk, OnErr};
ghost use Rattle.c_words.specs.Calls.{HasText, access_of, call_as, call_of, flags_of, has_text};
ghost use Rattle.c_words.specs.Calls.{how_of, kind_of, name_call, number_call, whence_of};
ghost use Rattle.c_words.specs.Faults.{IsUnsaid};
ghost use Rattle.c_words.specs.declared.fault.LibraryFault.TheVariants as fault;

use crate::fault::LibraryFault;
use crate::words::CallWords;
use posix_terms::{Access, Call, CallKind, OpenFlags, SharedBytes, ShutdownHow, Whence};
use std::alloc::{AllocError, Global};

/// The call that the words say. `text` is its path or its bytes, and `second` the second of two paths.
pub fn call_of(
    alloc: Global,
    words: &CallWords,
    text: &[u8],
    second: &[u8],
) -> Result<Call, LibraryFault>
    ensures ok { IfOk result (λ call. call_of words.now text.now second.now ≡ Some call) }
    ensures refused { IfErr result
        (IsUnsaid fault.NotACall (call_of words.now text.now second.now)) }
    ensures memory { result ≡ Err fault.NoMemory → HasText words.now }
{
    if words.flags > 31 {
        return Err(LibraryFault::NotACall);
    }
    let Some(kind) = kind_of(words.kind) else {
        return Err(LibraryFault::NotACall);
    };
    match call_as(alloc, kind, words, text, second) {
        Ok(Some(call)) => Ok(call),
        Ok(None) => Err(LibraryFault::NotACall),
        Err(_) => Err(LibraryFault::NoMemory),
    }
}

// The call of this kind.
fn call_as(
    alloc: Global,
    kind: CallKind,
    words: &CallWords,
    text: &[u8],
    second: &[u8],
) -> Result<Option<Call>, AllocError>
    ensures ok { IfOk result (λ call. call ≡ call_as kind words.now text.now second.now) }
    ensures memory { OnErr result (has_text kind ≡ true) }
{
    if !has_text(kind) {
        return Ok(plain_call(kind, words));
    }
    let text = SharedBytes::from_slice(alloc, text)?;
    let second = SharedBytes::from_slice(alloc, second)?;
    Ok(text_call(kind, words, text, second))
}

// Whether a call of this kind has a path or bytes.
fn has_text(kind: CallKind) -> bool
    ensures { result ≡ has_text kind }
{
    matches!(
        kind,
        CallKind::Open
            | CallKind::Write
            | CallKind::Pwrite
            | CallKind::Link
            | CallKind::Unlink
            | CallKind::Rename
            | CallKind::Mkdir
            | CallKind::Rmdir
            | CallKind::HostOpen
    )
}

// A call with a path or bytes.
fn text_call(
    kind: CallKind,
    words: &CallWords,
    text: SharedBytes,
    second: SharedBytes,
) -> Option<Call>
    ensures { has_text kind ≡ true → result ≡ call_as kind words.now text second }
{
    match kind {
        CallKind::Open => Some(Call::Open {
            path: text,
            access: access_of(words.choice)?,
            flags: flags_of(words.flags),
        }),
        CallKind::HostOpen => Some(Call::HostOpen {
            path: text,
            access: access_of(words.choice)?,
            flags: flags_of(words.flags),
        }),
        CallKind::Write => Some(Call::Write {
            descriptor: words.descriptor,
            bytes: text,
        }),
        CallKind::Pwrite => Some(Call::Pwrite {
            descriptor: words.descriptor,
            bytes: text,
            position: words.position,
        }),
        _ => name_call(kind, text, second),
    }
}

// A call that has a path, or two, and nothing else.
fn name_call(kind: CallKind, path: SharedBytes, second: SharedBytes) -> Option<Call>
    ensures { result ≡ name_call kind path second }
{
    match kind {
        CallKind::Link => Some(Call::Link {
            old_path: path,
            new_path: second,
        }),
        CallKind::Rename => Some(Call::Rename {
            old_path: path,
            new_path: second,
        }),
        CallKind::Unlink => Some(Call::Unlink { path }),
        CallKind::Mkdir => Some(Call::Mkdir { path }),
        CallKind::Rmdir => Some(Call::Rmdir { path }),
        _ => None,
    }
}

// A call with neither path nor bytes.
fn plain_call(kind: CallKind, words: &CallWords) -> Option<Call>
    ensures { (text second : List ℕ) → has_text kind ≡ false
        → result ≡ call_as kind words.now text second }
{
    let descriptor = words.descriptor;
    match kind {
        CallKind::Close => Some(Call::Close { descriptor }),
        CallKind::Fstat => Some(Call::Fstat { descriptor }),
        CallKind::Dup => Some(Call::Dup { descriptor }),
        CallKind::Getfl => Some(Call::Getfl { descriptor }),
        CallKind::Setfl => {
            let flags = flags_of(words.flags);
            Some(Call::Setfl {
                descriptor,
                append: flags.append,
                nonblock: flags.nonblock,
            })
        }
        CallKind::Shutdown => Some(Call::Shutdown {
            descriptor,
            how: how_of(words.choice)?,
        }),
        CallKind::Pipe => Some(Call::Pipe),
        CallKind::Socketpair => Some(Call::Socketpair),
        CallKind::TcpListen => Some(Call::TcpListen { port: words.number }),
        CallKind::TcpConnect => Some(Call::TcpConnect { port: words.number }),
        CallKind::TcpAccept => Some(Call::TcpAccept { descriptor }),
        _ => number_call(kind, words),
    }
}

// A call that has a descriptor and a number.
fn number_call(kind: CallKind, words: &CallWords) -> Option<Call>
    ensures { result ≡ number_call kind words.now }
{
    let descriptor = words.descriptor;
    let number = words.number;
    Some(match kind {
        CallKind::Read => Call::Read {
            descriptor,
            count: number,
        },
        CallKind::Pread => Call::Pread {
            descriptor,
            count: number,
            position: words.position,
        },
        CallKind::Lseek => Call::Lseek {
            descriptor,
            offset: number,
            whence: whence_of(words.choice)?,
        },
        CallKind::Ftruncate => Call::Ftruncate {
            descriptor,
            size: number,
        },
        CallKind::DupFrom => Call::DupFrom {
            descriptor,
            least: number,
        },
        CallKind::Dup2 => Call::Dup2 {
            descriptor,
            target: number,
        },
        _ => return None,
    })
}

fn access_of(choice: u32) -> Option<Access>
    ensures { result ≡ access_of choice }
{
    match choice {
        0 => Some(Access::ReadOnly),
        1 => Some(Access::WriteOnly),
        2 => Some(Access::ReadWrite),
        _ => None,
    }
}

fn whence_of(choice: u32) -> Option<Whence>
    ensures { result ≡ whence_of choice }
{
    match choice {
        0 => Some(Whence::Set),
        1 => Some(Whence::Current),
        2 => Some(Whence::End),
        _ => None,
    }
}

fn how_of(choice: u32) -> Option<ShutdownHow>
    ensures { result ≡ how_of choice }
{
    match choice {
        0 => Some(ShutdownHow::Read),
        1 => Some(ShutdownHow::Write),
        2 => Some(ShutdownHow::Both),
        _ => None,
    }
}

fn flags_of(flags: u32) -> OpenFlags
    ensures { result ≡ flags_of flags }
{
    OpenFlags {
        create: flags % 2 == 1,
        exclusive: flags / 2 % 2 == 1,
        truncate: flags / 4 % 2 == 1,
        append: flags / 8 % 2 == 1,
        nonblock: flags / 16 % 2 == 1,
    }
}

fn kind_of(code: u32) -> Option<CallKind>
    ensures { result ≡ kind_of code }
{
    Some(match code {
        1 => CallKind::Open,
        2 => CallKind::Close,
        3 => CallKind::Read,
        4 => CallKind::Write,
        5 => CallKind::Pread,
        6 => CallKind::Pwrite,
        7 => CallKind::Lseek,
        8 => CallKind::Ftruncate,
        9 => CallKind::Fstat,
        10 => CallKind::Dup,
        11 => CallKind::DupFrom,
        12 => CallKind::Dup2,
        13 => CallKind::Getfl,
        14 => CallKind::Setfl,
        15 => CallKind::Link,
        16 => CallKind::Unlink,
        17 => CallKind::Rename,
        18 => CallKind::Mkdir,
        19 => CallKind::Rmdir,
        20 => CallKind::Pipe,
        21 => CallKind::Socketpair,
        22 => CallKind::Shutdown,
        23 => CallKind::HostOpen,
        24 => CallKind::TcpListen,
        25 => CallKind::TcpConnect,
        26 => CallKind::TcpAccept,
        _ => return None,
    })
}
