ghost use Rattle.std.specs.Prelude.{◌≡◌, ◌⊎◌, IfOk, codes};
ghost use Rattle.std.specs.Io.KnownBytes.{Appends};
ghost use Rattle.command_texts.specs.Printing.{IsCut, IsPrinted, cannot_read, fault_printed};

use posix_terms::Bytes;
use std::alloc::{AllocError, Global};
use std::io;
use std::io::Write;

/// What a command prints on standard output and standard error, and its exit status.
#[derive(Debug, Drop)]
pub struct Printed {
    pub status: u8,
    pub output: Bytes,
    pub errors: Bytes,
}

/// A line on standard error, and a status.
pub fn fault(alloc: Global, status: u8, line: &str) -> Result<Printed, AllocError>
    ensures { IfOk result (λ printed. printed ≡ fault_printed status line.now) }
{
    Ok(Printed {
        status,
        output: Bytes::from_vec(Vec::new(alloc)),
        errors: Bytes::from_slice(alloc, line.as_bytes())?,
    })
}

/// The file at this path cannot be read.
pub fn cannot_read(alloc: Global, path: &str) -> Result<Printed, AllocError>
    ensures { IfOk result (λ printed. printed ≡ cannot_read path.now) }
{
    let text = format!(in alloc; "cannot read {path}\n")?;
    fault(alloc, 4, text.as_str())
}

/// Writes what is to be printed, and returns the status.
pub fn print<W: Write, E: Write>(
    printed: &Printed,
    output: &mut W,
    errors: &mut E,
) -> io::Result<u8>
    ensures { IfOk result (λ status. IsPrinted printed.now status (W.contents output.old)
        (W.contents output.new) (E.contents errors.old) (E.contents errors.new)
        ⊎ IsCut status (E.contents errors.old) (E.contents errors.new)) }
{
    match output.write_all(printed.output.as_slice()) {
        Ok(()) => {
            errors.write_all(printed.errors.as_slice())?;
            Ok(printed.status)
        }
        Err(_) => cannot_write(errors),
    }
}

/// Says that standard output could not be written, and returns the status.
pub fn cannot_write<E: Write>(errors: &mut E) -> io::Result<u8>
    ensures { IfOk result (λ status. IsCut status (E.contents errors.old) (E.contents errors.new)) }
{
    errors.write_all(b"cannot write -\n")?;
    Ok(4)
}

/// Says that there is no memory, and returns the status.
pub fn no_memory<E: Write>(errors: &mut E) -> io::Result<u8>
    ensures { IfOk result (λ status. (status ≡ 4)
        × Appends (E.contents errors.old) (E.contents errors.new) (codes "no memory\n")) }
{
    errors.write_all(b"no memory\n")?;
    Ok(4)
}
