use posix_terms::{OpenFlags, SharedBytes};

/// What an operand says. In a line of a script a number and what is written may be registers.
#[derive(Clone, Copy, Debug)]
pub enum OperandValue<'a, Number = i64, Text = &'a SharedBytes> {
    /// A descriptor: one that the call uses, or the number that `dup2` gives to a copy.
    Descriptor(Number),
    /// A count, a position, an offset, a size or a port.
    Number(Number),
    /// What is written.
    Bytes(Text),
    /// Where a file, a directory or a file of the host is.
    Path(&'a [u8]),
    /// How something is opened, from where an offset counts, or what is shut: a word of scripts.
    Word(&'static str),
    /// The flags of a call that opens, or those that `setfl` sets.
    Flags(OpenFlags),
}

/// An operand of a call, with its name.
#[derive(Clone, Copy, Debug)]
pub struct Operand<'a, Number = i64, Text = &'a SharedBytes> {
    pub name: &'static str,
    pub value: OperandValue<'a, Number, Text>,
}

/// The operands of a call, in their order. Where one is lacking there is none after it.
#[derive(Clone, Copy, Debug)]
pub struct Operands<'a, Number = i64, Text = &'a SharedBytes> {
    pub first: Option<Operand<'a, Number, Text>>,
    pub second: Option<Operand<'a, Number, Text>>,
    pub third: Option<Operand<'a, Number, Text>>,
}
