ghost use Rattle.std.specs.Prelude.{◌≡◌, IfOk};
ghost use Rattle.call_turns.specs.Store.{first_stored};

use call_turns::Store;
use std::alloc::{AllocError, Global};
use std::marker::Model;

/// The store that a machine left, for the next one, or none yet. It is the first one again, with nothing of the run
/// before. Contracts see whether there is one.
#[derive(Drop)]
pub struct SpareStore {
    store: Option<Box<Store>>,
}

impl Model for SpareStore {
    ghost use Rattle.std.specs.Prelude.{◌≡◌, Bool, IfSome, is_some};
    ghost use Rattle.call_turns.specs.Store.{first_stored};

    ghost Value = { Bool };

    ghost view = { λ s. is_some s.store };

    ghost invariant = { λ s. IfSome s.store (λ store. store.value ≡ first_stored) };
}

impl SpareStore {
    /// None yet.
    pub fn new() -> SpareStore {
        SpareStore { store: None }
    }

    // The spare one, or a new one where there is none.
    pub(crate) fn take(&mut self, alloc: Global) -> Result<Box<Store>, AllocError>
        ensures { IfOk result (λ store. store.value ≡ first_stored) }
    {
        match self.store.take() {
            Some(store) => Ok(store),
            None => Ok(Box::new(alloc, Store::new(alloc)?)?),
        }
    }

    // Keeps a store that is not needed any more. It takes no memory.
    pub(crate) fn put(&mut self, store: Box<Store>) {
        let mut store = store;
        store.reset();
        self.store = Some(store);
    }
}
