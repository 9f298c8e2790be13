// The files that one command writes: at any error that it reports, all of them are as they were.
use std::fs::{self, File, Metadata, OpenOptions};
use std::io::{self, ErrorKind, Write};

// A file to write, and what it is to have.
#[derive(Clone, Copy)]
pub(crate) struct ToFile<'a> {
    pub path: &'a str,
    pub bytes: &'a [u8],
}

// Which file was not written, and why.
#[derive(Drop)]
pub(crate) struct NotWritten<'a> {
    pub path: &'a str,
    pub error: io::Error,
}

// Where the bytes of a file go.
#[derive(Drop)]
enum Way {
    // To a new file.
    New,
    // To the place of a file that is there.
    InPlace(OldFile),
    // To what is no file, as a device or a pipe.
    Through,
}

// A file that is to be replaced: its own path, the one of the new file until all are whole, and the
// one that it has itself until all are replaced. The new one may be used as the old one.
#[derive(Drop)]
struct OldFile {
    path: String,
    fresh: String,
    kept: String,
    found: Metadata,
}

// A file with its way, and what was done on it.
#[derive(Drop)]
struct Placed<'a> {
    file: ToFile<'a>,
    way: Way,
    // Its new file was made.
    made: bool,
    // The old file has the name by which it is kept.
    moved: bool,
}

// Writes these files, whose directory is made where it is not there. Without force all are new.
pub(crate) fn write_files<'a>(
    rt: &HostRuntime,
    folder: Option<&'a str>,
    files: &[ToFile<'a>],
    force: bool,
) -> Result<(), NotWritten<'a>> {
    let mut placed = all_placed(rt, files, force)?;
    let mut made = Vec::new(rt.alloc());
    let path = files.first().map(|file| file.path).unwrap_or("");
    let written = match folder.map(|folder| make_folder(rt, folder, &mut made)) {
        Some(Err(error)) => Err(NotWritten { path, error }),
        _ => put_all(rt, &mut placed),
    };
    if written.is_err() {
        for part in made.iter().rev() {
            let _ = fs::remove_dir(rt, *part);
        }
    }
    written
}

// Makes this directory, and those that lead to it, where they are missing, and notes which.
fn make_folder<'a>(rt: &HostRuntime, path: &'a str, made: &mut Vec<&'a str>) -> io::Result<()> {
    for end in 1..=path.len() {
        let Some(part) = part_of(path, end) else {
            continue;
        };
        made.push(part)?;
        if let Err(error) = fs::create_dir(rt, part) {
            made.pop();
            if !is_folder(rt, part) {
                return Err(error);
            }
        }
    }
    Ok(())
}

// The front of a path of so many bytes, where a name of it ends there.
fn part_of(path: &str, end: usize) -> Option<&str> {
    let (part, rest) = path.split_at_checked(end)?;
    (rest.is_empty() || rest.starts_with('/')).then_some(part)
}

fn is_folder(rt: &HostRuntime, path: &str) -> bool {
    matches!(fs::metadata(rt, path), Ok(found) if found.is_dir())
}

// These files with their ways. Nothing is made yet.
fn all_placed<'a>(
    rt: &HostRuntime,
    files: &[ToFile<'a>],
    force: bool,
) -> Result<Vec<Placed<'a>>, NotWritten<'a>> {
    let mut placed = Vec::new(rt.alloc());
    for file in files {
        let (file, path) = (*file, file.path);
        let way = if force {
            way_of(rt, path)
        } else {
            Ok(Way::New)
        };
        let way = way.map_err(|error| NotWritten { path, error })?;
        let next = Placed {
            file,
            way,
            made: false,
            moved: false,
        };
        if let Err(error) = placed.push(next) {
            let error = error.into();
            return Err(NotWritten { path, error });
        }
    }
    Ok(placed)
}

// The way to what is at this path. A directory is left to whoever tries to make a file there.
fn way_of(rt: &HostRuntime, path: &str) -> io::Result<Way> {
    match fs::metadata(rt, path) {
        Ok(found) if found.is_file() => Ok(Way::InPlace(old_file(rt, path, found)?)),
        Ok(found) if !found.is_dir() => Ok(Way::Through),
        _ => Ok(Way::New),
    }
}

// How many names are tried for a file beside another.
const NAMES: u32 = 1_000;

// The file at this path, by its own name where the path is a link, with two names beside it that
// nothing has.
fn old_file(rt: &HostRuntime, path: &str, found: Metadata) -> io::Result<OldFile> {
    let path = own_path(rt, path)?;
    for number in 0..NAMES {
        let fresh = format!(in rt.alloc(); "{path}.{number}.new")?;
        let kept = format!(in rt.alloc(); "{path}.{number}.old")?;
        if is_free(rt, fresh.as_str()) && is_free(rt, kept.as_str()) {
            return Ok(OldFile {
                path,
                fresh,
                kept,
                found,
            });
        }
    }
    Err(ErrorKind::AlreadyExists.into())
}

fn own_path(rt: &HostRuntime, path: &str) -> io::Result<String> {
    let is_link = matches!(fs::symlink_metadata(rt, path), Ok(found) if found.is_symlink());
    if is_link {
        return Ok(fs::canonicalize(rt, path)?.into_string());
    }
    Ok(String::from_str(rt.alloc(), path)?)
}

fn is_free(rt: &HostRuntime, path: &str) -> bool {
    fs::symlink_metadata(rt, path).is_err()
}

// Writes the new files, then what is no file, and then replaces the old ones; or takes all back.
fn put_all<'a>(rt: &HostRuntime, files: &mut [Placed<'a>]) -> Result<(), NotWritten<'a>> {
    let put = put_each(rt, files);
    for placed in files.iter() {
        match put {
            Ok(()) => placed.forget_old(rt),
            Err(_) => placed.take_back(rt),
        }
    }
    put
}

fn put_each<'a>(rt: &HostRuntime, files: &mut [Placed<'a>]) -> Result<(), NotWritten<'a>> {
    // One file takes the place of another in one step. Of several, a later step may fail.
    let keeps = files.len() > 1;
    for step in [Step::Fresh, Step::Through, Step::Replace] {
        for placed in files.iter_mut() {
            placed.take(rt, step, keeps).map_err(|error| NotWritten {
                path: placed.file.path,
                error,
            })?;
        }
    }
    Ok(())
}

// What is done on all files before the next is done on any.
#[derive(Clone, Copy)]
enum Step {
    Fresh,
    Through,
    Replace,
}

impl Placed<'_> {
    // This step, for one file.
    fn take(&mut self, rt: &HostRuntime, step: Step, keeps: bool) -> io::Result<()> {
        match (step, &self.way) {
            (Step::Fresh, Way::New) => {
                let file = File::create_new(rt, self.file.path)?;
                self.made = true;
                filled(file, self.file.bytes)
            }
            (Step::Fresh, Way::InPlace(old)) => {
                let file = File::create_new(rt, old.fresh.as_str())?;
                self.made = true;
                file.set_permissions(old.found.permissions())?;
                filled(file, self.file.bytes)
            }
            (Step::Through, Way::Through) => {
                let file = OpenOptions::new().write(true).open(rt, self.file.path)?;
                filled(file, self.file.bytes)
            }
            (Step::Replace, Way::InPlace(old)) => {
                if keeps {
                    fs::rename(rt, old.path.as_str(), old.kept.as_str())?;
                    self.moved = true;
                }
                fs::rename(rt, old.fresh.as_str(), old.path.as_str())
            }
            _ => Ok(()),
        }
    }

    // All is again as it was.
    fn take_back(&self, rt: &HostRuntime) {
        let _ = match &self.way {
            Way::New if self.made => fs::remove_file(rt, self.file.path),
            Way::InPlace(old) if self.moved => {
                let _ = fs::rename(rt, old.kept.as_str(), old.path.as_str());
                fs::remove_file(rt, old.fresh.as_str())
            }
            Way::InPlace(old) if self.made => fs::remove_file(rt, old.fresh.as_str()),
            _ => Ok(()),
        };
    }

    // All was replaced: the old file is not needed.
    fn forget_old(&self, rt: &HostRuntime) {
        if let (Way::InPlace(old), true) = (&self.way, self.moved) {
            let _ = fs::remove_file(rt, old.kept.as_str());
        }
    }
}

fn filled(file: File, bytes: &[u8]) -> io::Result<()> {
    let mut file = file;
    file.write_all(bytes)
}
