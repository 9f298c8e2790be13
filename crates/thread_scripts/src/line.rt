ghost use Rattle.std.specs.Prelude.{◌≡◌, ◌<◌, ℕ, IfOk};

use posix_terms::{Call, SharedBytes};
use std::alloc::AllocError;
use std::marker::Model;

/// One of so many registers. Contracts see its number.
#[derive(Clone, Copy, Debug, PartialEq, Eq)]
pub struct Register<const COUNT: usize> {
    index: usize,
}

impl<const COUNT: usize> Model for Register<COUNT> {
    ghost Value = { ℕ };

    ghost view = { λ r. r.index };

    ghost invariant = { λ r. r.index < COUNT };

    ghost inverse = { λ n. record { index = n } };
}

impl<const COUNT: usize> Register<COUNT> {
    /// The register of this number.
    pub fn new(index: usize) -> Register<COUNT>
        requires { index < COUNT }
        ensures { result ≡ index }
    {
        Register { index }
    }

    pub fn index(self) -> usize
        ensures value { result ≡ self.entry }
        ensures below { result < COUNT }
    {
        self.index
    }
}

/// A number register, `r0` to `r15`.
pub type NumberRegister = Register<16>;

/// A byte register, `b0` to `b3`.
pub type ByteRegister = Register<4>;

/// A number as a line gives it.
#[derive(Clone, Copy, Debug, PartialEq, Eq)]
pub enum Number {
    Value(i64),
    /// What the register holds when the line is executed.
    Register(NumberRegister),
}

/// Bytes as a line gives them.
#[derive(Clone, Debug, PartialEq, Eq, Drop)]
pub enum Data {
    /// At most 32,767 bytes.
    Text(SharedBytes),
    /// What the register holds when the line is executed.
    Register(ByteRegister),
}

/// A call as a line gives it: its numbers and bytes are found when the line is executed. In a script, also one made in
/// code, the bytes of a path are `!` to `~`, and a file of the host is opened without `exclusive` and `nonblock`.
pub type CallLine = Call<Number, Data>;

/// A line of a script that does something. A jump has the place of its label's line: how many lines
/// lie before that.
///
/// Lines that a program makes in code become a script by [`Script::of`](crate::Script::of).
#[derive(Clone, Debug, PartialEq, Eq, Drop)]
pub enum Line {
    Call(CallLine),
    /// Work of so many units of the thread's clock. In a text at most 1,000,000, in code of any length.
    Work(u64),
    /// The thread ends. After the last line it ends as well.
    End,
    Set {
        register: NumberRegister,
        value: Number,
    },
    /// Adds to the register, modulo 2^64.
    Add {
        register: NumberRegister,
        value: Number,
    },
    SetBytes {
        register: ByteRegister,
        value: Data,
    },
    /// Where jumps lead. In code it has no name: a jump names its place.
    Label,
    Jump {
        place: usize,
    },
    /// Jumps where the register is 0.
    JumpIfZero {
        register: NumberRegister,
        place: usize,
    },
    /// Jumps where there is a last reply, and it is a failure.
    JumpIfFailed {
        place: usize,
    },
}

impl Line {
    /// A copy of the line, which shares the bytes of its texts with it.
    pub fn try_clone(&self) -> Result<Line, AllocError>
        ensures { IfOk result (λ line. line ≡ self.now) }
    {
        self.clone()
    }
}
