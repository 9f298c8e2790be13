ghost use Rattle.std.specs.Prelude.{◌<◌};

use posix_terms::{Access, Call, OpenFlags, SharedBytes, ShutdownHow};
use thread_scripts::{Data, Line, Number, NumberRegister, Register};

// The lines of this program, each under the name of its call. A descriptor is
// a number that the script knows, or a register that has it.

pub(crate) fn register(index: usize) -> NumberRegister
    requires { index < 16 }
{
    Register::new(index)
}

// A register as a number of a line.
pub(crate) fn held(index: usize) -> Number
    requires { index < 16 }
{
    Number::Register(Register::new(index))
}

// What the last read brought, which the script has in `b0`.
pub(crate) fn last_read() -> Data {
    Data::Register(Register::new(0))
}

pub(crate) fn listen() -> Line {
    Line::Call(Call::TcpListen {
        port: Number::Value(0),
    })
}

pub(crate) fn accept(descriptor: Number) -> Line {
    Line::Call(Call::TcpAccept { descriptor })
}

pub(crate) fn connect(port: Number) -> Line {
    Line::Call(Call::TcpConnect { port })
}

// Opens a host file to append to it, and makes it where it is not there.
pub(crate) fn open_to_append(path: SharedBytes) -> Line {
    Line::Call(Call::HostOpen {
        path,
        access: Access::WriteOnly,
        flags: OpenFlags {
            create: true,
            exclusive: false,
            truncate: false,
            append: true,
            nonblock: false,
        },
    })
}

pub(crate) fn read(descriptor: Number, count: i64) -> Line {
    Line::Call(Call::Read {
        descriptor,
        count: Number::Value(count),
    })
}

pub(crate) fn write(descriptor: Number, bytes: Data) -> Line {
    Line::Call(Call::Write { descriptor, bytes })
}

pub(crate) fn fstat(descriptor: Number) -> Line {
    Line::Call(Call::Fstat { descriptor })
}

// Says that no more will be written.
pub(crate) fn end_of_writing(descriptor: Number) -> Line {
    Line::Call(Call::Shutdown {
        descriptor,
        how: ShutdownHow::Write,
    })
}

pub(crate) fn close(descriptor: Number) -> Line {
    Line::Call(Call::Close { descriptor })
}

// Keeps what the last reply gave, which the script has in `r0`, in another register.
pub(crate) fn keep_in(register: NumberRegister) -> Line {
    Line::Set {
        register,
        value: Number::Register(Register::new(0)),
    }
}
