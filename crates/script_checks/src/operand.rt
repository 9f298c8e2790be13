/// The flags that a line may have after its operands.
#[derive(Clone, Copy, Debug, PartialEq, Eq)]
pub enum FlagSet {
    /// Those of `open`.
    Open,
    /// Those of `host_open`.
    Host,
    /// Those of `setfl`.
    Status,
}

/// What an operand of a line has to be.
#[derive(Clone, Copy, Debug, PartialEq, Eq)]
pub enum OperandShape {
    Number,
    /// The length of a work.
    Amount,
    Register,
    ByteRegister,
    Bytes,
    Path,
    Access,
    Whence,
    HowToShut,
    NewLabel,
    KnownLabel,
}

/// What may stand after the first word of a line.
#[derive(Clone, Copy, Debug)]
pub(crate) struct Shape {
    pub operands: &'static [OperandShape],
    /// Those that may follow the operands, if any may.
    pub flags: Option<FlagSet>,
}
