ghost use Rattle.std.specs.Prelude.{◌≡◌, ◌≢◌, ◌+◌, ◌<◌, ◌≤◌, ◌↔◌, IsTrue};
ghost use Rattle.recorder.specs.declared.pulse.TheConstants.{LOOKS};

use std::sync::Wait;
use std::sync::atomic::{AtomicBool, AtomicU64, Ordering};
use std::thread::Parker;
use std::time::Duration;

// How many looks in a row find nothing new, until a run counts as standing still.
pub const LOOKS: u32 = 8;

// Whether a run moves, for the thread that watches it.
#[derive(Drop)]
pub struct Pulse {
    // one for each step that was asked, and each end
    beats: AtomicU64,
    // whether all workers are back
    over: AtomicBool,
    // where the watcher sleeps
    parker: Parker,
}

impl Pulse {
    pub fn new() -> Pulse {
        Pulse {
            beats: AtomicU64::new(0),
            over: AtomicBool::new(false),
            parker: Parker::new(),
        }
    }

    // A step was asked.
    pub fn beat(&self) {
        self.beats.fetch_add(1, Ordering::SeqCst);
    }

    pub fn beats(&self) -> u64 {
        self.beats.load(Ordering::SeqCst)
    }

    // All workers are back. The watcher need not sleep on.
    pub fn end(&self) {
        self.over.store(true, Ordering::SeqCst);
        self.parker.unpark();
    }

    pub fn is_over(&self) -> bool {
        self.over.load(Ordering::SeqCst)
    }

    // Sleeps for so long, or until the run is over.
    pub fn sleep<R: Wait>(&self, rt: &R, time: Duration) {
        self.parker.park_timeout(rt, time);
    }
}

// For how many looks in a row there was nothing new.
#[derive(Drop)]
pub struct Stillness {
    beats: u64,
    looks: u32,
}

impl Stillness {
    pub fn new() -> Stillness {
        Stillness { beats: 0, looks: 0 }
    }

    // The beats that were found last.
    pub fn beats(&self) -> u64 {
        self.beats
    }

    // Another look finds so many beats. True once for each time of stillness: at the last of so
    // many looks in a row.
    pub fn has_come(&mut self, beats: u64) -> bool
        ensures told { IsTrue result ↔ ((beats ≡ self.old.beats) × (self.old.looks + 1 ≡ LOOKS)) }
        ensures beats { self.new.beats ≡ beats }
        ensures moved { beats ≢ self.old.beats → self.new.looks ≡ 0 }
        ensures still { beats ≡ self.old.beats → self.old.looks < LOOKS
            → self.new.looks ≡ self.old.looks + 1 }
        ensures shown { beats ≡ self.old.beats → LOOKS ≤ self.old.looks
            → self.new.looks ≡ self.old.looks }
    {
        if beats != self.beats {
            self.beats = beats;
            self.looks = 0;
            return false;
        }
        if self.looks >= LOOKS {
            return false;
        }
        self.looks += 1;
        self.looks == LOOKS
    }
}
