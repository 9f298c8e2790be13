ghost use Rattle.std.specs.Prelude.{◌≡◌, ℕ, List, IfOk, nat_eq};
ghost use Rattle.std.specs.Arc.{arc_slice_items};
ghost use Rattle.std.specs.Cmp.{partial_equiv_from_equiv};
ghost use Rattle.std.specs.Cmp.Lexicographic.{pointwise, nat_list_eq_equiv};

use std::alloc::{AllocError, Global};
use std::marker::Model;
use std::sync::ArcSlice;

/// A byte text that all its copies share: a copy takes no memory, however long the text is, and
/// fails only where there are 2^63 of them. Contracts see the list of its bytes.
///
/// The paths and bytes of a [`Call`](crate::Call) are such texts. So the call can be kept where it
/// was asked, by the thread that makes it and in each row of the history.
#[derive(Debug, Drop)]
pub struct SharedBytes {
    items: ArcSlice<u8>,
}

impl Model for SharedBytes {
    ghost Value = { List ℕ };

    ghost view = { λ b. arc_slice_items b.items };
}

impl PartialEq for SharedBytes {
    ghost eq = { pointwise nat_eq };

    ghost laws = { partial_equiv_from_equiv nat_list_eq_equiv };

    fn eq(&self, other: &SharedBytes) -> bool {
        self.as_slice() == other.as_slice()
    }
}

impl Eq for SharedBytes {
    ghost laws = { nat_list_eq_equiv };
}

impl Clone for SharedBytes {
    ghost is_clone = { λ b copy. copy ≡ b };

    fn clone(&self) -> Result<SharedBytes, AllocError> {
        self.try_clone()
    }
}

impl SharedBytes {
    /// The bytes of `items`, which are not copied. It takes memory for what the copies share.
    pub fn from_vec(items: Vec<u8>) -> Result<SharedBytes, AllocError>
        ensures { IfOk result (λ b. b ≡ items.items) }
    {
        Ok(SharedBytes {
            items: ArcSlice::from_vec(items)?,
        })
    }

    /// A copy of `bytes`.
    pub fn from_slice(alloc: Global, bytes: &[u8]) -> Result<SharedBytes, AllocError>
        ensures { IfOk result (λ b. b ≡ bytes.now) }
    {
        SharedBytes::from_vec(Vec::from_slice(alloc, bytes)?)
    }

    /// The bytes.
    pub fn as_slice(&self) -> &[u8]
        ensures { result.now ≡ self.now }
    {
        self.items.as_slice()
    }

    /// A copy, which shares the bytes.
    pub fn try_clone(&self) -> Result<SharedBytes, AllocError>
        ensures { IfOk result (λ b. b ≡ self.now) }
    {
        Ok(SharedBytes {
            items: self.items.clone()?,
        })
    }
}
