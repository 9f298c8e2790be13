use posix_terms::{Access, End};

/// The file status flags that can be set: `O_APPEND` and `O_NONBLOCK`.
#[derive(Clone, Copy, Debug, PartialEq, Eq)]
pub struct StatusFlags {
    pub append: bool,
    pub nonblock: bool,
}

/// An open file description: what it refers to, how it may be used, its offset and its flags.
#[derive(Clone, Copy, Debug, PartialEq, Eq)]
pub struct Description {
    /// The number of its object.
    pub node: usize,
    pub end: End,
    pub access: Access,
    pub offset: u64,
    pub flags: StatusFlags,
    /// How many descriptors refer to it.
    pub holders: usize,
    /// How many descriptions were made before it. No other ever has this number.
    pub birth: u128,
}
