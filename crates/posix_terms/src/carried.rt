/// What a blocked call hands on to its next turn.
#[derive(Clone, Copy, Debug, PartialEq, Eq)]
pub struct Carried {
    /// How many turns found it blocked so far.
    pub turns: u32,
    /// What it moved at those turns.
    pub moved: Moved,
}

/// What a call moved at turns at which it could not go on to its end.
#[derive(Clone, Copy, Debug, PartialEq, Eq)]
pub struct Moved {
    /// How many of its bytes.
    pub bytes: u64,
    /// The birth of the open file description through which the first byte went: how many
    /// descriptions had been made before it. So a call can see whether its descriptor still refers
    /// to that one, even after another took its key. `None` before the first byte.
    pub from: Option<u128>,
}

impl Moved {
    /// No byte was moved.
    pub const NOTHING: Moved = Moved {
        bytes: 0,
        from: None,
    };
}

impl Carried {
    /// What a call carries at its first turn.
    pub const NOTHING: Carried = Carried {
        turns: 0,
        moved: Moved::NOTHING,
    };
}
