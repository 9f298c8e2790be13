use call_machine::Machine;
use input_log::{Header, LogWriter, MemorySink};
use posix_terms::{Access, Call, Limits, OpenFlags, Settings, SharedBytes, Step};
use std::alloc::{AllocError, Global};

// A machine that a test drives. A door is a number here.
pub(crate) type Driven = Machine<MemorySink, u8>;

pub(crate) const SETTINGS: Settings = Settings {
    patience: 1000,
    door_cost: 100,
    version: 1,
};

pub(crate) const CREATE: OpenFlags = OpenFlags {
    create: true,
    exclusive: false,
    truncate: false,
    append: false,
    nonblock: false,
};

// A machine of so many threads, whose log has so much room.
#[tactic(auto, unfolding(input_log::specs::Grammar::in_range))]
pub(crate) fn machine(
    alloc: Global,
    threads: usize,
    settings: Settings,
    room: usize,
) -> Result<Driven, AllocError> {
    if threads < 1
        || threads > Limits::THREADS
        || settings.patience < 1
        || settings.patience > 1_000_000
        || settings.door_cost < 1
        || settings.door_cost > 1_000_000
        || (settings.version != 1 && settings.version != 2)
    {
        return Err(AllocError);
    }
    let header = Header {
        version: settings.version,
        threads: threads as u16,
        patience: settings.patience,
        door_cost: settings.door_cost,
    };
    match LogWriter::begin(MemorySink::new(alloc, room)?, header) {
        Ok(log) => match Machine::new(alloc, threads, settings, log) {
            Ok(machine) => Ok(machine),
            Err(_) => Err(AllocError),
        },
        Err(_) => Err(AllocError),
    }
}

// Steps that a thread asks: an open of a path, and a write of these bytes.
pub(crate) fn open(
    alloc: Global,
    path: &[u8],
    access: Access,
    flags: OpenFlags,
) -> Result<Step, AllocError> {
    Ok(Step::Call(Call::Open {
        path: SharedBytes::from_slice(alloc, path)?,
        access,
        flags,
    }))
}

pub(crate) fn write(alloc: Global, descriptor: i64, bytes: &[u8]) -> Result<Step, AllocError> {
    Ok(Step::Call(Call::Write {
        descriptor,
        bytes: SharedBytes::from_slice(alloc, bytes)?,
    }))
}
