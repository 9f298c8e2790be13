ghost use Rattle.std.specs.Prelude.{◌≡◌, IfOk};
ghost use Rattle.comparator.specs.Renaming.{first_renamed, gives, renamed, renamed_call};
ghost use Rattle.comparator.specs.Renaming.{renamed_reply, renamed_row, renamed_rows};
ghost use Rattle.comparator.specs.Renaming.{target_renamed, transfer_renamed};

use crate::naming::Names;
use posix_terms::{Call, CallKind, Reply, Row, Transcript, Transcripts};
use std::alloc::{AllocError, Global};

/// What threads saw, with their descriptors renamed. An error means out of memory.
pub fn renamed(alloc: Global, transcripts: &Transcripts) -> Result<Transcripts, AllocError>
    ensures { IfOk result (λ names. names ≡ renamed transcripts.now) }
{
    let mut names = Names::new();
    let mut threads = Vec::with_capacity(alloc, transcripts.threads().len())?;
    for transcript in transcripts.threads() {
        threads.push(names.in_rows(alloc, transcript.rows())?)?;
    }
    Ok(Transcripts::from_vec(threads))
}

impl Names {
    // The rows of a thread.
    fn in_rows(&mut self, alloc: Global, rows: &[Row]) -> Result<Transcript, AllocError>
        ensures { IfOk result (λ names. (self.new, names) ≡ renamed_rows self.old rows.now) }
    {
        let mut renamed = Vec::with_capacity(alloc, rows.len())?;
        for row in rows {
            renamed.push(self.in_row(row)?)?;
        }
        Ok(Transcript::from_vec(renamed))
    }

    // A row: first its call, then its reply.
    fn in_row(&mut self, row: &Row) -> Result<Row, AllocError>
        ensures { IfOk result (λ names. (self.new, names) ≡ renamed_row self.old row.now) }
    {
        let call = row.call.try_clone()?;
        let call = self.in_call(call);
        let reply = row.reply.try_clone()?;
        let reply = self.in_reply(row.call.kind(), reply);
        Ok(Row {
            call,
            turn: row.turn,
            reply,
        })
    }

    // A call with the descriptors that it names.
    fn in_call(&mut self, call: Call) -> Call
        ensures { (self.new, result) ≡ renamed_call self.old call }
    {
        let call = self.in_first(call);
        self.in_target(call)
    }

    // A call with the first that it names.
    #[tactic(auto, unfolding(crate::specs::Renaming::first_renamed))]
    fn in_first(&mut self, call: Call) -> Call
        ensures { (self.new, result) ≡ first_renamed self.old call }
    {
        match call {
            Call::Close { descriptor } => Call::Close {
                descriptor: self.used(descriptor),
            },
            Call::Fstat { descriptor } => Call::Fstat {
                descriptor: self.used(descriptor),
            },
            Call::Dup { descriptor } => Call::Dup {
                descriptor: self.used(descriptor),
            },
            Call::DupFrom { descriptor, least } => Call::DupFrom {
                descriptor: self.used(descriptor),
                least,
            },
            Call::Dup2 { descriptor, target } => Call::Dup2 {
                descriptor: self.used(descriptor),
                target,
            },
            Call::Getfl { descriptor } => Call::Getfl {
                descriptor: self.used(descriptor),
            },
            Call::Setfl {
                descriptor,
                append,
                nonblock,
            } => Call::Setfl {
                descriptor: self.used(descriptor),
                append,
                nonblock,
            },
            Call::Shutdown { descriptor, how } => Call::Shutdown {
                descriptor: self.used(descriptor),
                how,
            },
            Call::TcpAccept { descriptor } => Call::TcpAccept {
                descriptor: self.used(descriptor),
            },
            other => self.in_transfer(other),
        }
    }

    // A call at what a file or a stream holds, with the descriptor that it names.
    #[tactic(auto, unfolding(crate::specs::Renaming::transfer_renamed))]
    fn in_transfer(&mut self, call: Call) -> Call
        ensures { (self.new, result) ≡ transfer_renamed self.old call }
    {
        match call {
            Call::Read { descriptor, count } => Call::Read {
                descriptor: self.used(descriptor),
                count,
            },
            Call::Write { descriptor, bytes } => Call::Write {
                descriptor: self.used(descriptor),
                bytes,
            },
            Call::Pread {
                descriptor,
                count,
                position,
            } => Call::Pread {
                descriptor: self.used(descriptor),
                count,
                position,
            },
            Call::Pwrite {
                descriptor,
                bytes,
                position,
            } => Call::Pwrite {
                descriptor: self.used(descriptor),
                bytes,
                position,
            },
            Call::Lseek {
                descriptor,
                offset,
                whence,
            } => Call::Lseek {
                descriptor: self.used(descriptor),
                offset,
                whence,
            },
            Call::Ftruncate { descriptor, size } => Call::Ftruncate {
                descriptor: self.used(descriptor),
                size,
            },
            other => other,
        }
    }

    // A `dup2` with its target.
    fn in_target(&mut self, call: Call) -> Call
        ensures { (self.new, result) ≡ target_renamed self.old call }
    {
        match call {
            Call::Dup2 { descriptor, target } => Call::Dup2 {
                descriptor,
                target: self.used(target),
            },
            other => other,
        }
    }

    // A reply of a call of this kind, with the descriptors that it gives.
    fn in_reply(&mut self, kind: CallKind, reply: Reply) -> Reply
        ensures { (self.new, result) ≡ renamed_reply self.old kind reply }
    {
        match reply {
            Reply::Number(number) if gives(kind) => Reply::Number(self.given(number)),
            Reply::Pair(first, second) => {
                let first = self.given(first);
                Reply::Pair(first, self.given(second))
            }
            other => other,
        }
    }
}

// Whether the number that such a call replies is a descriptor, and no offset and no flags.
fn gives(kind: CallKind) -> bool
    ensures { result ≡ gives kind }
{
    !matches!(kind, CallKind::Lseek | CallKind::Getfl)
}
