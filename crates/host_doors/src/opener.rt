ghost use Rattle.std.specs.Prelude.{ℕ, List, Result, ⊤};
ghost use Rattle.std.specs.declared.fs.options.OpenOptions.{OpenOptions};
ghost use Rattle.std.specs.declared.io.Error.{Error};

use std::fs::{File, Files, OpenOptions};
use std::io;

/// What opens host files. What comes of one opening, or of cutting a file, is a relation, so that contracts say
/// with which options a file was opened, and why none was.
pub(crate) trait Opener<F> {
    /// What may come of one opening with these options and this path.
    ghost opened: { OpenOptions → List ℕ → Result F Error → Type 0 };

    /// What may come of cutting a file to no bytes.
    ghost cut: { F → Result Unit Error → Type 0 };

    fn open_once(&self, how: &OpenOptions, path: &str) -> io::Result<F>
        ensures { opened how.now path.now result };

    fn cut_once(&self, file: &F) -> io::Result<()>
        ensures { cut file.now result };
}

impl<R: Files<File = File>> Opener<File> for R {
    ghost opened = { λ _ _ _. ⊤ };

    ghost cut = { λ _ _. ⊤ };

    fn open_once(&self, how: &OpenOptions, path: &str) -> io::Result<File> {
        how.open(self, path)
    }

    fn cut_once(&self, file: &File) -> io::Result<()> {
        file.set_len(0)
    }
}
