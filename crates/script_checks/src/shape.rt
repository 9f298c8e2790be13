use crate::operand::{FlagSet, OperandShape, Shape};
use posix_terms::CallKind;
use thread_scripts::kind_named;

// No flags may follow these operands.
fn without_flags(operands: &'static [OperandShape]) -> Shape {
    Shape {
        operands,
        flags: None,
    }
}

// These flags may follow these operands.
fn with_flags(operands: &'static [OperandShape], flags: FlagSet) -> Shape {
    Shape {
        operands,
        flags: Some(flags),
    }
}

/// What may stand after this word at the head of a line, if the language has the word.
pub(crate) fn shape_of(word: &[u8]) -> Option<Shape> {
    let operands: &'static [OperandShape] = if word == b"work".as_slice() {
        &[OperandShape::Amount]
    } else if word == b"end".as_slice() {
        &[]
    } else if word == b"set".as_slice() || word == b"add".as_slice() {
        &[OperandShape::Register, OperandShape::Number]
    } else if word == b"setb".as_slice() {
        &[OperandShape::ByteRegister, OperandShape::Bytes]
    } else if word == b"label".as_slice() {
        &[OperandShape::NewLabel]
    } else if word == b"jump".as_slice() || word == b"jfail".as_slice() {
        &[OperandShape::KnownLabel]
    } else if word == b"jzero".as_slice() {
        &[OperandShape::Register, OperandShape::KnownLabel]
    } else {
        return Some(call_shape(kind_named(word)?));
    };
    Some(without_flags(operands))
}

// What may stand after the word of a call.
fn call_shape(kind: CallKind) -> Shape {
    match kind {
        CallKind::Open => with_flags(&[OperandShape::Path, OperandShape::Access], FlagSet::Open),
        CallKind::HostOpen => with_flags(
            &[OperandShape::Path, OperandShape::Access],
            FlagSet::Host,
        ),
        CallKind::Setfl => with_flags(&[OperandShape::Number], FlagSet::Status),
        CallKind::Close
        | CallKind::Fstat
        | CallKind::Dup
        | CallKind::Getfl
        | CallKind::TcpListen
        | CallKind::TcpConnect
        | CallKind::TcpAccept => without_flags(&[OperandShape::Number]),
        CallKind::Read | CallKind::Ftruncate | CallKind::DupFrom | CallKind::Dup2 => {
            without_flags(&[OperandShape::Number, OperandShape::Number])
        }
        CallKind::Pread => {
            without_flags(&[
                OperandShape::Number,
                OperandShape::Number,
                OperandShape::Number,
            ])
        }
        CallKind::Write => without_flags(&[OperandShape::Number, OperandShape::Bytes]),
        CallKind::Pwrite => without_flags(&[
            OperandShape::Number,
            OperandShape::Bytes,
            OperandShape::Number,
        ]),
        CallKind::Lseek => without_flags(&[
            OperandShape::Number,
            OperandShape::Number,
            OperandShape::Whence,
        ]),
        CallKind::Shutdown => without_flags(&[OperandShape::Number, OperandShape::HowToShut]),
        CallKind::Unlink | CallKind::Mkdir | CallKind::Rmdir => without_flags(&[
            OperandShape::Path,
        ]),
        CallKind::Link | CallKind::Rename => without_flags(&[
            OperandShape::Path,
            OperandShape::Path,
        ]),
        CallKind::Pipe | CallKind::Socketpair => without_flags(&[]),
    }
}
