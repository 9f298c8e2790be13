ghost use Rattle.std.specs.Prelude.{◌≡◌, IfOk, length, map, option_map};
ghost use Rattle.std.specs.List.{find};
ghost use Rattle.sequential_object.specs.Paths.{components_of, has_trailing_slash, is_dots};
ghost use Rattle.script_checks.specs.Paths.{error_of, is_long, path_refusal, refusal_seen};

use posix_terms::{Errno, Limits, pieces};
use std::alloc::{AllocError, Global};

/// Why calls refuse a path of the tree in memory, whatever the tree holds.
#[derive(Clone, Copy, Debug, PartialEq, Eq)]
pub enum PathFault<'a> {
    /// It has no bytes.
    Empty,
    /// It has more than 255 bytes.
    TooLong,
    /// This name of it is `.` or `..`.
    Dots(&'a [u8]),
    /// A slash follows its last name.
    EndsInSlash,
    /// This name of it has more than 14 bytes.
    LongName(&'a [u8]),
}

impl PathFault<'_> {
    /// The error with which the path is refused.
    pub fn error(self) -> Errno
        ensures { result ≡ error_of (refusal_seen self.entry) }
    {
        match self {
            PathFault::Empty => Errno::ENOENT,
            PathFault::TooLong => Errno::ENAMETOOLONG,
            PathFault::Dots(_) => Errno::EINVAL,
            PathFault::EndsInSlash => Errno::EINVAL,
            PathFault::LongName(_) => Errno::ENAMETOOLONG,
        }
    }
}

/// Why a path is refused, if it is; of several reasons the one that the reply is by. By the law
/// [`paths_are_refused`](crate::paths_are_refused) there is one exactly where the form is wrong.
pub fn path_fault<'a>(alloc: Global, path: &'a [u8]) -> Result<Option<PathFault<'a>>, AllocError>
    ensures { IfOk result (λ fault. option_map refusal_seen fault ≡ path_refusal path.now) }
{
    if path.is_empty() {
        return Ok(Some(PathFault::Empty));
    }
    if path.len() > Limits::PATH_BYTES {
        return Ok(Some(PathFault::TooLong));
    }
    let names = pieces(alloc, path, b'/')?;
    if let Some(name) = first_dots(&names) {
        return Ok(Some(PathFault::Dots(name)));
    }
    if has_trailing_slash(path, names.len()) {
        return Ok(Some(PathFault::EndsInSlash));
    }
    Ok(match first_long(&names) {
        Some(name) => Some(PathFault::LongName(name)),
        None => None,
    })
}

// The first of these names that is `.` or `..`.
fn first_dots<'a>(names: &[&'a [u8]]) -> Option<&'a [u8]>
    ensures { option_map (λ name. name.now) result
        ≡ find is_dots (map (λ name. name.now) names.now) }
{
    for i in 0..names.len() {
        if is_dots(names[i]) {
            return Some(names[i]);
        }
    }
    None
}

fn is_dots(name: &[u8]) -> bool
    ensures { result ≡ is_dots name.now }
{
    name == b".".as_slice() || name == b"..".as_slice()
}

// The first of these names that is too long.
fn first_long<'a>(names: &[&'a [u8]]) -> Option<&'a [u8]>
    ensures { option_map (λ name. name.now) result
        ≡ find is_long (map (λ name. name.now) names.now) }
{
    for i in 0..names.len() {
        if names[i].len() > Limits::NAME_BYTES {
            return Some(names[i]);
        }
    }
    None
}

// Whether a slash follows the last of so many names of a path.
fn has_trailing_slash(path: &[u8], names: usize) -> bool
    requires { names ≡ length (components_of path.now) }
    ensures { result ≡ has_trailing_slash path.now }
{
    names > 0 && !path.is_empty() && path[path.len() - 1] == b'/'
}
