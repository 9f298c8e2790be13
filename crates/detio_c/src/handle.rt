ghost use Rattle.std.specs.Prelude.{◌≡◌, Option, Some, None, option_map};
ghost use Rattle.detio_c.specs.declared.session.Session.{Session};
ghost use Rattle.call_turns.specs.StoreCode.{stored_code};
ghost use Rattle.std.specs.Coded.{codes};

use crate::session::Session;
use loose_box::Loose;
use std::alloc::Global;
use std::marker::Model;

/// A place for a box: its pointer, where it is live.
#[repr(C)]
pub struct Handle {
    at: *mut u8,
    live: bool,
    alloc: Global,
    ghost value: { Option Session } by { Prim.hlevel (codes, stored_code) },
}

impl Model for Handle {
    ghost use Rattle.detio_c.specs.Owned.{slot_owns};
    ghost use Rattle.detio_c.specs.contracts.session.Session.{the_row};

    ghost also_owns = { λ l. slot_owns the_row l.live l.alloc l.at l.value };
}

impl Handle {
    /// Of a box, by its pointer.
    pub fn of(loose: Loose<Session, Global>) -> Handle
        ensures { result.value ≡ Some loose.value }
    {
        let Loose { at, alloc } = loose;
        Handle {
            at: at as *mut u8,
            live: true,
            alloc,
        }
    }

    /// Of nothing.
    pub fn empty(alloc: Global) -> Handle
        ensures { result.value ≡ None }
    {
        Handle {
            at: std::ptr::null_mut(),
            live: false,
            alloc,
        }
    }

    /// The box again, by its pointer.
    pub fn into_loose(self) -> Option<Loose<Session, Global>>
        ensures { option_map (λ (b : Loose Session Global). b.value) result ≡ self.value }
    {
        let Handle { at, live, alloc } = self;
        if live {
            Some(Loose {
                at: at as *mut Session,
                alloc,
            })
        } else {
            None
        }
    }
}

impl Drop for Handle {
    fn drop(self) {
        if let Some(loose) = self.into_loose() {
            drop(loose.into_box());
        }
    }
}

// A handle may cross to another thread.
unsafe impl Send for Handle {}

fn crosses<T: Send>(_value: &T) {}

/// The proof that a handle may cross to another thread is asked for here.
pub fn handle_crosses(h: &Handle) {
    crosses(h);
}
