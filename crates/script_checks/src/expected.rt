use crate::operand::{FlagSet, OperandShape};

/// What is expected where a line is bad.
#[derive(Clone, Copy, Debug, PartialEq, Eq)]
pub enum Expected {
    /// In a comment: a byte below 128.
    Ascii,
    /// Elsewhere: a byte from 32 to 126.
    Visible,
    /// A word that lines begin with.
    Word,
    Operand(OperandShape),
    /// A number of 64 bits: what stands there has too many digits for one.
    NumberInRange,
    /// At most 32,767 bytes: what stands there has more.
    FewerBytes,
    /// A label of at most 14 lower-case letters and digits.
    LabelName,
    /// A label of another name than the one in this line.
    OtherLabel(usize),
    /// A flag that does not stand in the line already.
    Flag(FlagSet),
    EndOfLine,
    /// Something else than this line.
    GoodLine,
}

/// What stands where a line is bad.
#[derive(Clone, Copy, Debug)]
pub enum Found<'a> {
    Word(&'a [u8]),
    /// A byte that cannot be seen.
    Byte(u8),
    /// Nothing: the line ends before.
    End,
}

/// Why a line is bad.
#[derive(Clone, Copy, Debug)]
pub struct Mistake<'a> {
    /// Where in the line, in bytes from 1. Where the line ends too early it is the column after it.
    pub column: usize,
    pub expected: Expected,
    pub found: Found<'a>,
}
