ghost use Rattle.std.specs.Prelude.{◌≡◌, None, Some, option_map};
ghost use Rattle.detio_c.specs.Promise.{IsFaithfulIn};
ghost use Rattle.detio_c.specs.declared.session.Session.{Session};
ghost use Rattle.std.specs.declared.boxed.Box.{Box};
ghost use Rattle.std.specs.declared.alloc.Global.{Global};

use crate::handle::Handle;
use crate::session::Session;
use loose_box::Loose;
use std::alloc::Global;
use std::mem::replace;

/// The session of a handle, which has nothing until it is put back.
pub fn taken(alloc: Global, h: &mut Handle) -> Option<Box<Session>>
    ensures value { option_map (λ (b : Box Session Global). b.value) result ≡ h.old.value }
    ensures empty { h.new.value ≡ None }
{
    match replace(h, Handle::empty(alloc)).into_loose() {
        Some(loose) => Some(loose.into_box()),
        None => None,
    }
}

/// Puts a session back, or in place of what was there.
pub fn put(h: &mut Handle, session: Box<Session>)
    ensures value { h.new.value ≡ Some session.value }
    ensures faithful { IsFaithfulIn h.new.value }
{
    session.faithful();
    *h = Handle::of(Loose::of(session));
}
