ghost use Rattle.std.specs.Prelude.{ℕ, List, Bool, ⊤};

use std::alloc::{AllocError, Global};
use std::fs::{self, Files, Metadata};
use std::os::unix::fs::MetadataExt;
use std::sync::{Arc, OnceLock};

/// Finds out which paths lead to the log of a run.
pub trait LogFinder {
    /// What it may answer of a path.
    ghost may_answer: { Self → List ℕ → Bool → Type 0 };

    /// Whether the path leads to the log now, by whatever name.
    fn is_log(&self, path: &[u8]) -> bool
        ensures { may_answer self.now path.now result };
}

/// A file of the host: the device that it is on, and its number there. No two files that are there at
/// one time have the same.
#[derive(Clone, Copy, Debug, PartialEq, Eq, Hash)]
pub struct FileId {
    device: u64,
    number: u64,
}

impl FileId {
    /// That of the file with this metadata. Only a regular file has one here: a device or a pipe has
    /// nothing to lose.
    pub fn of(found: &Metadata) -> Option<FileId> {
        if !found.is_file() {
            return None;
        }
        Some(FileId {
            device: found.dev(),
            number: found.ino(),
        })
    }
}

/// Where the log of a run is, once it was made. Copies of it are shared: what one is told, all know.
#[derive(Drop)]
pub struct LogPlace {
    file: Arc<OnceLock<FileId>, Global>,
}

impl LogPlace {
    /// No log was made yet.
    pub fn new(alloc: Global) -> Result<LogPlace, AllocError> {
        Ok(LogPlace {
            file: Arc::new(alloc, OnceLock::new())?,
        })
    }

    /// The same place, for whoever else is to know it.
    pub fn share(&self) -> Result<LogPlace, AllocError> {
        Ok(LogPlace {
            file: Arc::try_clone(&self.file)?,
        })
    }

    /// The log was made, and is this file. What it was told first stays.
    pub fn set(&self, file: FileId) {
        let _ = self.file.try_set(file);
    }

    /// The file of the log, where one was made that has something to lose.
    pub fn file(&self) -> Option<FileId> {
        self.file.get().copied()
    }
}

/// The log of a run on the host. Until it was made no path leads to it.
#[derive(Drop)]
pub struct HostLog<R> {
    pub rt: R,
    pub place: LogPlace,
}

impl<R: Files> LogFinder for HostLog<R> {
    ghost may_answer = { λ _ _ _. ⊤ };

    fn is_log(&self, path: &[u8]) -> bool {
        let (Some(log), Ok(path)) = (self.place.file(), str::from_utf8(path)) else {
            return false;
        };
        match fs::metadata(&self.rt, path) {
            Ok(found) => FileId::of(&found) == Some(log),
            Err(_) => false,
        }
    }
}
