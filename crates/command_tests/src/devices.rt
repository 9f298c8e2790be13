ghost use Rattle.std.specs.Prelude.{◌≡◌, IfOk, None, length};

use commands::{Source, SourceFault, TextReader, read_once};
use std::alloc::{AllocError, Global};
use std::fs::File;
use std::io;
use std::io::Write;

/// A text, or a device that gives no text of its own.
#[derive(Clone, Copy, Drop)]
pub enum Device {
    Text(&'static [u8]),
    /// So many empty lines.
    EmptyLines(usize),
    /// It fails.
    Broken,
    /// It gives bytes for ever.
    Endless,
}

impl TextReader for Device {
    ghost remaining = { λ _. None };

    fn next_bytes(&mut self, buf: &mut [u8]) -> Result<usize, SourceFault> {
        match self {
            Device::Text(text) => text.next_bytes(buf),
            Device::EmptyLines(left) => {
                let count = buf.len().min(*left);
                for byte in buf.iter_mut().take(count) {
                    *byte = b'\n';
                }
                *left -= count;
                Ok(count)
            }
            Device::Broken => Err(SourceFault),
            Device::Endless => {
                for byte in buf.iter_mut() {
                    *byte = b'#';
                }
                Ok(buf.len())
            }
        }
    }
}

impl Write for Device {
    fn write(&mut self, _buf: &[u8]) -> io::Result<usize> {
        Err(io::Error::from(io::ErrorKind::StorageFull))
    }

    fn flush(&mut self) -> io::Result<()> {
        Ok(())
    }
}

/// Where a text comes from.
#[derive(Drop)]
pub enum Text<'a> {
    Script(&'a [u8]),
    File(File),
    Device(Device),
}

impl TextReader for Text<'_> {
    ghost remaining = { λ _. None };

    fn next_bytes(&mut self, buf: &mut [u8]) -> Result<usize, SourceFault> {
        match self {
            Text::Script(script) => script.next_bytes(buf),
            Text::File(file) => read_once(file, buf),
            Text::Device(device) => device.next_bytes(buf),
        }
    }
}

/// The scripts that a command reads.
pub type Sources<'a> = Vec<Source<'static, Text<'a>>>;

/// These scripts as sources.
pub(crate) fn sources<'a>(alloc: Global, scripts: &[&'a str]) -> Result<Sources<'a>, AllocError>
    ensures one_each { IfOk result (λ sources. length sources.items ≡ length scripts.now) }
{
    let mut sources = Vec::new(alloc);
    for i in 0..scripts.len() {
        sources.push(Source {
            path: "a.script",
            reader: Text::Script(scripts[i].as_bytes()),
        })?;
    }
    Ok(sources)
}

const PATHS: &[&str] = &[
    "0", "1", "2", "3", "4", "5", "6", "7", "8", "9", "10", "11", "12", "13", "14", "15", "16",
];

/// These devices as the sources "0", "1" and so on.
pub(crate) fn numbered(alloc: Global, devices: &[Device]) -> Result<Sources<'static>, AllocError> {
    let mut sources = Vec::new(alloc);
    for (path, device) in PATHS.iter().zip(devices.iter()) {
        sources.push(Source {
            path: *path,
            reader: Text::Device(*device),
        })?;
    }
    Ok(sources)
}
