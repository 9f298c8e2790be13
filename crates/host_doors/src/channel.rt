ghost use Rattle.std.specs.Prelude.{◌≡◌, ◌≤◌, ℕ, List, length, take, Result, Ok, Err, IfOk, IfSome};
ghost use Rattle.std.specs.Prelude.{None, OnErr, ⊤};
ghost use Rattle.std.specs.Io.{ReadsAtMost, WritesAtMost};
ghost use Rattle.std.specs.declared.io.Error.{Error};
ghost use Rattle.host_doors.specs.Asked.{bytes_of};
ghost use Rattle.host_doors.specs.Channels.{HasRead, IsInvalid};

use crate::asked::bytes_to_write;
use posix_terms::{Bytes, Request};
use std::alloc::{AllocError, Global};
use std::fs::File;
use std::io;
use std::io::{Read, Write};
use std::net::TcpStream;

/// What bytes are read from and written to: a host file or a stream. What one call of the host gave or took
/// is a relation, so that contracts say that there was exactly one.
pub(crate) trait Channel {
    /// What may come of one read into so much room: the count, what stands in the room, and the channel after.
    ghost gave: { Self → ℕ → Result ℕ Error → List ℕ → Self → Type 0 };

    /// What may come of one write of these bytes: the count, and the channel after.
    ghost took: { Self → List ℕ → Result ℕ Error → Self → Type 0 };

    fn read_once(&mut self, room: &mut [u8]) -> io::Result<usize>
        ensures bound { ReadsAtMost result room.new }
        ensures length { length room.new ≡ length room.old }
        ensures gave { gave self.old (length room.old) result room.new self.new };

    fn write_once(&mut self, bytes: &[u8]) -> io::Result<usize>
        ensures bound { WritesAtMost result bytes.now }
        ensures took { took self.old bytes.now result self.new };
}

impl Channel for File {
    ghost gave = { λ _ _ _ _ _. ⊤ };

    ghost took = { λ _ _ _ _. ⊤ };

    fn read_once(&mut self, room: &mut [u8]) -> io::Result<usize> {
        self.read(room)
    }

    fn write_once(&mut self, bytes: &[u8]) -> io::Result<usize> {
        self.write(bytes)
    }
}

impl Channel for TcpStream {
    ghost gave = { λ _ _ _ _ _. ⊤ };

    ghost took = { λ _ _ _ _. ⊤ };

    fn read_once(&mut self, room: &mut [u8]) -> io::Result<usize> {
        self.read(room)
    }

    fn write_once(&mut self, bytes: &[u8]) -> io::Result<usize> {
        self.write(bytes)
    }
}

/// Reads once, with room for the bytes asked for. Without memory for them nothing is read.
pub(crate) fn read_asked<C: Channel>(
    channel: &mut C,
    alloc: Global,
    asked: u64,
) -> Result<io::Result<Bytes>, AllocError>
    ensures read { IfOk result (λ found.
        HasRead (λ count room. C.gave channel.old asked count room channel.new) found) }
    ensures few { IfOk result (λ found. IfOk found (λ bytes. length bytes ≤ asked)) }
    ensures same { OnErr result (channel.new ≡ channel.old) }
{
    let mut room = vec![in alloc; 0; asked as usize]?;
    match channel.read_once(room.as_mut_slice()) {
        Ok(count) => {
            room.truncate(count);
            Ok(Ok(Bytes::from_vec(room)))
        }
        Err(error) => Ok(Err(error)),
    }
}

/// Writes the call's bytes once, as many as were asked for. What the host says is returned as it is: how many it
/// took, or why it took none. `InvalidInput` where the call writes none.
pub(crate) fn write_asked<C: Channel>(channel: &mut C, request: &Request) -> io::Result<u64>
    ensures wrote { IfSome (bytes_of request.now.call)
        (λ bytes. C.took channel.old (take request.now.asked bytes) result channel.new) }
    ensures invalid { bytes_of request.now.call ≡ None → IsInvalid result
        × (channel.new ≡ channel.old) }
    ensures few { IfOk result (λ count. count ≤ request.now.asked) }
{
    let bytes = bytes_to_write(&request.call, request.asked)?;
    match channel.write_once(bytes) {
        Ok(count) => Ok(count as u64),
        Err(error) => Err(error),
    }
}
