ghost use Rattle.std.specs.Prelude.{◌≡◌, ◌∷◌, [], ℤ, List, OnOk, if◌then◌else◌};
ghost use Rattle.std.specs.Prelude.{option_copied, unwrap_or};
ghost use Rattle.std.specs.Ordering.{int_eq};
ghost use Rattle.posix_terms.specs.declared.transcript.HistoryRow.{HistoryRow};
ghost use Rattle.fault_injection.specs.Objects.{AreObjects, known};
ghost use Rattle.fault_injection.specs.Places.{is_number, object_of, opened};

use posix_terms::{Call, ObjectKind, PackedRow, Reply};
use std::alloc::{AllocError, Global};
use std::collections::BTreeMap;

// What numbers refer to after some turns of a history, or did before they were closed.
#[derive(Drop)]
pub(crate) struct Objects {
    by_number: BTreeMap<i64, Option<ObjectKind>>,
}

impl Objects {
    // The table before all turns.
    pub fn new(alloc: Global) -> Objects
        ensures { AreObjects [] result }
    {
        Objects {
            by_number: BTreeMap::new(alloc),
        }
    }

    // What a read or a write goes by; nothing for any other call.
    pub fn of_call(&self, call: &Call) -> Option<ObjectKind>
        ensures { (past : List HistoryRow) → AreObjects past self.now
            → result ≡ object_of call.now past }
    {
        match call {
            Call::Read { descriptor, .. } | Call::Write { descriptor, .. } => self.at(*descriptor),
            _ => None,
        }
    }

    // Follows one more turn.
    pub fn pass(&mut self, row: &PackedRow) -> Result<(), AllocError>
        ensures { OnOk result ((past : List HistoryRow) → AreObjects past self.old
            → AreObjects (row.now ∷ past) self.new) }
    {
        let Some(object) = self.opened(row.call()) else {
            return Ok(());
        };
        let reply = row.reply()?;
        self.give(reply.as_ref(), object)
    }

    // What the number of this call's reply refers to; nothing where that is no descriptor.
    fn opened(&self, call: &Call) -> Option<Option<ObjectKind>>
        ensures { (n : ℤ) →
            opened call.now (known self.now) n ≡ unwrap_or result (known self.now n) }
    {
        Some(match call {
            Call::Open { .. } => Some(ObjectKind::File),
            Call::Pipe => Some(ObjectKind::Pipe),
            Call::Socketpair => Some(ObjectKind::SocketPair),
            Call::HostOpen { .. } => Some(ObjectKind::HostFile),
            Call::TcpListen { .. } => Some(ObjectKind::Listener),
            Call::TcpConnect { .. } | Call::TcpAccept { .. } => Some(ObjectKind::Stream),
            Call::Dup { descriptor }
            | Call::DupFrom { descriptor, .. }
            | Call::Dup2 { descriptor, .. } => self.at(*descriptor),
            _ => return None,
        })
    }

    // What this number refers to.
    fn at(&self, number: i64) -> Option<ObjectKind>
        ensures { result ≡ known self.now number }
    {
        match self.by_number.get(&number) {
            Some(object) => *object,
            None => None,
        }
    }

    // The numbers of this reply refer to this from now on.
    fn give(&mut self, reply: Option<&Reply>, object: Option<ObjectKind>) -> Result<(), AllocError>
        ensures { OnOk result ((n : ℤ) → known self.new n
            ≡ (if is_number n (option_copied reply.entry) then object else known self.old n)) }
    {
        match reply {
            Some(Reply::Number(number)) => self.set(*number, object),
            Some(Reply::Pair(first, second)) => {
                self.set(*first, object)?;
                self.set(*second, object)
            }
            _ => Ok(()),
        }
    }

    // This number refers to this from now on.
    fn set(&mut self, number: i64, object: Option<ObjectKind>) -> Result<(), AllocError>
        ensures { OnOk result ((n : ℤ) → known self.new n
            ≡ (if int_eq number n then object else known self.old n)) }
    {
        self.by_number.insert(number, object)?;
        Ok(())
    }
}
