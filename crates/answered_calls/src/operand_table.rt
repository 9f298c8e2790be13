ghost use Rattle.std.specs.Prelude.{◌≡◌, ◌∷◌, []};
ghost use Rattle.answered_calls.specs.Operands as said;
ghost use Rattle.answered_calls.specs.Operands.{bytes_said, descriptor_said, flags_said};
ghost use Rattle.answered_calls.specs.Operands.{operands_of};
ghost use Rattle.answered_calls.specs.OperandsSeen.{AreInOrder, named_seen, operands_seen};

use crate::operand::{Operand, OperandValue, Operands};
use crate::operand_words::{access_word, how_word, status_flags, whence_word};
use posix_terms::{Call, OpenFlags, SharedBytes};

/// The operands of a call.
#[tactic(auto, unfolding(crate::specs::Operands::operands_of))]
pub fn operands<'a, Number: Copy, Text>(
    call: &'a Call<Number, Text>,
) -> Operands<'a, Number, &'a Text>
    ensures listed { operands_seen result ≡ operands_of call.now }
    ensures in_order { AreInOrder result }
{
    match call {
        Call::Open {
            path,
            access,
            flags,
        }
        | Call::HostOpen {
            path,
            access,
            flags,
        } => {
            let access = word("access", access_word(*access));
            three(
                path_named("path", path.as_slice()),
                access,
                flags_named(*flags),
            )
        }
        Call::Link { old_path, new_path } | Call::Rename { old_path, new_path } => two(
            path_named("old_path", old_path.as_slice()),
            path_named("new_path", new_path.as_slice()),
        ),
        Call::Unlink { path } | Call::Mkdir { path } | Call::Rmdir { path } => {
            one(path_named("path", path.as_slice()))
        }
        Call::TcpListen { port } | Call::TcpConnect { port } => one(number("port", *port)),
        Call::Pipe | Call::Socketpair => Operands {
            first: None,
            second: None,
            third: None,
        },
        Call::Close { descriptor }
        | Call::Fstat { descriptor }
        | Call::Dup { descriptor }
        | Call::Getfl { descriptor }
        | Call::TcpAccept { descriptor } => one(descriptor_named(*descriptor)),
        Call::Read { descriptor, count } => at(*descriptor, number("count", *count)),
        Call::Write { descriptor, bytes } => at(*descriptor, bytes_named(bytes)),
        Call::Ftruncate { descriptor, size } => at(*descriptor, number("size", *size)),
        Call::DupFrom { descriptor, least } => at(*descriptor, number("least", *least)),
        Call::Dup2 { descriptor, target } => at(*descriptor, descriptor_as("target", *target)),
        Call::Shutdown { descriptor, how } => at(*descriptor, word("how", how_word(*how))),
        Call::Setfl {
            descriptor,
            append,
            nonblock,
        } => { at(*descriptor, flags_named(status_flags(*append, *nonblock))) }
        Call::Pread {
            descriptor,
            count,
            position,
        } => {
            let count = number("count", *count);
            three(
                descriptor_named(*descriptor),
                count,
                number("position", *position),
            )
        }
        Call::Pwrite {
            descriptor,
            bytes,
            position,
        } => {
            let bytes = bytes_named(bytes);
            three(
                descriptor_named(*descriptor),
                bytes,
                number("position", *position),
            )
        }
        Call::Lseek {
            descriptor,
            offset,
            whence,
        } => {
            let offset = number("offset", *offset);
            let whence = word("whence", whence_word(*whence));
            three(descriptor_named(*descriptor), offset, whence)
        }
    }
}

fn one<'a, Number: Copy, Text>(
    first: Operand<'a, Number, &'a Text>,
) -> Operands<'a, Number, &'a Text>
    ensures listed { operands_seen result ≡ named_seen first.entry ∷ [] }
    ensures in_order { AreInOrder result }
{
    Operands {
        first: Some(first),
        second: None,
        third: None,
    }
}

// A descriptor, and this operand after it.
fn at<'a, Number: Copy, Text>(
    descriptor: Number,
    second: Operand<'a, Number, &'a Text>,
) -> Operands<'a, Number, &'a Text>
    ensures listed { operands_seen result
        ≡ descriptor_said descriptor ∷ named_seen second.entry ∷ [] }
    ensures in_order { AreInOrder result }
{
    two(descriptor_named(descriptor), second)
}

fn two<'a, Number: Copy, Text>(
    first: Operand<'a, Number, &'a Text>,
    second: Operand<'a, Number, &'a Text>,
) -> Operands<'a, Number, &'a Text>
    ensures listed { operands_seen result ≡ named_seen first.entry ∷ named_seen second.entry ∷ [] }
    ensures in_order { AreInOrder result }
{
    Operands {
        first: Some(first),
        second: Some(second),
        third: None,
    }
}

fn three<'a, Number: Copy, Text>(
    first: Operand<'a, Number, &'a Text>,
    second: Operand<'a, Number, &'a Text>,
    third: Operand<'a, Number, &'a Text>,
) -> Operands<'a, Number, &'a Text>
    ensures listed { operands_seen result
        ≡ named_seen first.entry ∷ named_seen second.entry ∷ named_seen third.entry ∷ [] }
    ensures in_order { AreInOrder result }
{
    Operands {
        first: Some(first),
        second: Some(second),
        third: Some(third),
    }
}

// A descriptor under the name that most have.
fn descriptor_named<'a, Number: Copy, Text>(number: Number) -> Operand<'a, Number, &'a Text>
    ensures { named_seen result ≡ descriptor_said number }
{
    descriptor_as("descriptor", number)
}

fn descriptor_as<'a, Number: Copy, Text>(
    name: &'static str,
    number: Number,
) -> Operand<'a, Number, &'a Text>
    ensures { named_seen result ≡ (name.entry.now, said.Descriptor number) }
{
    Operand {
        name,
        value: OperandValue::Descriptor(number),
    }
}

fn number<'a, Number: Copy, Text>(
    name: &'static str,
    number: Number,
) -> Operand<'a, Number, &'a Text>
    ensures { named_seen result ≡ (name.entry.now, said.Number number) }
{
    Operand {
        name,
        value: OperandValue::Number(number),
    }
}

fn path_named<'a, Number: Copy, Text>(
    name: &'static str,
    path: &'a [u8],
) -> Operand<'a, Number, &'a Text>
    ensures { named_seen result ≡ (name.entry.now, said.Path path.now) }
{
    Operand {
        name,
        value: OperandValue::Path(path),
    }
}

fn word<'a, Number: Copy, Text>(
    name: &'static str,
    word: &'static str,
) -> Operand<'a, Number, &'a Text>
    ensures { named_seen result ≡ (name.entry.now, said.Word word.entry.now) }
{
    Operand {
        name,
        value: OperandValue::Word(word),
    }
}

fn bytes_named<'a, Number: Copy, Text>(bytes: &'a Text) -> Operand<'a, Number, &'a Text>
    ensures { named_seen result ≡ bytes_said bytes.now }
{
    Operand {
        name: "bytes",
        value: OperandValue::Bytes(bytes),
    }
}

fn flags_named<'a, Number: Copy, Text>(flags: OpenFlags) -> Operand<'a, Number, &'a Text>
    ensures { named_seen result ≡ flags_said flags }
{
    Operand {
        name: "flags",
        value: OperandValue::Flags(flags),
    }
}
