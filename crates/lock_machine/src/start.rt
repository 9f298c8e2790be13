ghost use Rattle.std.specs.Prelude.{◌≡◌, ◌≤◌, IfOk, replicate};
ghost use Rattle.posix_terms.specs.declared.limits.TheConstants.Limits as limit;
ghost use Rattle.lock_machine.specs.Starting.{first_item, first_whole};

use crate::machine::{LockMachine, Shared};
use crate::spare::SpareStore;
use crate::steps::Steps;
use crate::thread::{Phase, Thread};
use call_turns::Room;
use det_mutex::DetLock;
use logical_clocks::Clocks;
use posix_terms::{Limits, Settings};
use std::alloc::{AllocError, Global};

impl LockMachine {
    /// So many threads, over a table with nothing open and only the root.
    pub fn new(alloc: Global, threads: usize, settings: Settings) -> Result<LockMachine, AllocError>
        requires some { 1 ≤ threads }
        requires within_limit { threads ≤ limit.THREADS }
        ensures { IfOk result (λ machine. machine ≡ first_whole settings threads) }
    {
        LockMachine::new_from(alloc, &mut SpareStore::new(), threads, settings)
    }

    /// The same, with the store that another machine left, where there is one.
    pub fn new_from(
        alloc: Global,
        spare: &mut SpareStore,
        threads: usize,
        settings: Settings,
    ) -> Result<LockMachine, AllocError>
        requires some { 1 ≤ threads }
        requires within_limit { threads ≤ limit.THREADS }
        ensures { IfOk result (λ machine. machine ≡ first_whole settings threads) }
    {
        let clocks = Clocks::new(alloc, threads)?;
        Ok(LockMachine {
            settings,
            threads: first_threads(alloc, threads)?,
            clocks,
            shared: Shared {
                lock: DetLock::new(),
                store: spare.take(alloc)?,
                rows: Vec::new(alloc),
                wanted: None,
            },
            objects: vec![in alloc; DetLock::new(); Limits::OBJECTS]?,
        })
    }
}

fn first_threads(alloc: Global, count: usize) -> Result<Vec<Thread>, AllocError>
    ensures { IfOk result (λ threads. threads.items ≡ replicate count first_item) }
{
    let mut threads = Vec::new(alloc);
    for _ in 0..count {
        threads.push(first_thread(alloc)?)?;
    }
    Ok(threads)
}

fn first_thread(alloc: Global) -> Result<Thread, AllocError>
    ensures { IfOk result (λ thread. thread ≡ first_item) }
{
    Ok(Thread {
        phase: Phase::Working,
        asked: Steps::new(alloc)?,
        came: 0,
        room: Room::new(alloc),
    })
}
