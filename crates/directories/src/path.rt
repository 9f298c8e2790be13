ghost use Rattle.std.specs.Prelude.{◌≡◌, ◌==◌, ◌<◌, ◌≤◌, ◌∷◌, [], length, drop, take, nat_eq};
ghost use Rattle.std.specs.Prelude.{nat_lt, position, IfSome, IfNone, IfOk, IfErr, Ok, Err};
ghost use Rattle.std.specs.Cmp.Lexicographic.{pointwise};
ghost use Rattle.std.specs.List.{list_any};
ghost use Rattle.sequential_object.specs.Paths.{slash, components_of, has_trailing_slash, is_dots};
ghost use Rattle.sequential_object.specs.Paths.{path_form};
ghost use Rattle.directories.specs.Hashes.{hash_of};

use posix_terms::{Errno, Limits};
use std::hash::{FoldHasher, Hasher};

// Where the first slash stands.
fn slash_at(path: &[u8]) -> Option<usize>
    ensures { result ≡ position (λ b. b == slash) path.now }
{
    path.iter().position(|b| *b == b'/')
}

// What follows so many bytes.
fn after(path: &[u8], count: usize) -> &[u8]
    requires { count ≤ length path.now }
    ensures { result.now ≡ drop count path.now }
{
    &path[count..]
}

// The first component of a path, and what follows it.
#[tactic(auto, using(crate::proofs::ComponentLemmas::components))]
fn split_first(path: &[u8]) -> Option<(&[u8], &[u8])>
    ensures none { IfNone result (components_of path.now ≡ []) }
    ensures some { IfSome result (λ parts. components_of path.now
        ≡ parts.0.now ∷ components_of parts.1.now) }
    ensures shorter { IfSome result (λ parts. length parts.1.now < length path.now) }
{
    let mut rest = path;
    while let Some(at) = slash_at(rest) {
        let name = &rest[..at];
        rest = after(rest, at + 1);
        if !name.is_empty() {
            return Some((name, rest));
        }
    }
    if rest.is_empty() {
        return None;
    }
    Some((rest, after(rest, rest.len())))
}

// How many components a path has.
pub fn component_count(path: &[u8]) -> usize
    ensures count { result ≡ length (components_of path.now) }
{
    let mut count = 0;
    let mut rest = path;
    while let Some((_, next)) = split_first(rest) {
        count += 1;
        rest = next;
    }
    count
}

// A hash of the first `count` components of a path: the same for the same components.
#[tactic(auto, using(crate::proofs::HashLemmas::hashing))]
pub fn prefix_hash(path: &[u8], count: usize) -> u64
    ensures { result ≡ hash_of (take count (components_of path.now)) }
{
    let mut hasher = FoldHasher::default();
    let mut rest = path;
    for _ in 0..count {
        let Some((name, next)) = split_first(rest) else {
            return hasher.finish();
        };
        hasher.write(name);
        rest = next;
    }
    hasher.finish()
}

// Whether a path has the components of the first `count` of another path.
#[tactic(auto, using(crate::proofs::ComponentLemmas::prefixes))]
pub fn has_prefix_components(path: &[u8], other: &[u8], count: usize) -> bool
    ensures { result ≡ pointwise (pointwise nat_eq) (components_of path.now)
        (take count (components_of other.now)) }
{
    let Some((name, next)) = split_first(path) else {
        return count == 0 || split_first(other).is_none();
    };
    if count == 0 {
        return false;
    }
    let Some((other_name, other_next)) = split_first(other) else {
        return false;
    };
    name == other_name && has_prefix_components(next, other_next, count - 1)
}

// Whether a component is `.` or `..`.
fn is_dots(name: &[u8]) -> bool
    ensures { result ≡ is_dots name.now }
{
    name == b".".as_slice() || name == b"..".as_slice()
}

// Whether a path has such a component.
fn has_dots(path: &[u8]) -> bool
    ensures { result ≡ list_any is_dots (components_of path.now) }
{
    let mut rest = path;
    while let Some((name, next)) = split_first(rest) {
        if is_dots(name) {
            return true;
        }
        rest = next;
    }
    false
}

// Whether a component is longer than a name may be.
fn has_long_name(path: &[u8]) -> bool
    ensures { result ≡ list_any (λ name. nat_lt Limits.NAME_BYTES (length name))
        (components_of path.now) }
{
    let mut rest = path;
    while let Some((name, next)) = split_first(rest) {
        if name.len() > Limits::NAME_BYTES {
            return true;
        }
        rest = next;
    }
    false
}

// Whether there is a 0 byte.
fn has_zero(path: &[u8]) -> bool
    ensures { result ≡ list_any (λ b. b == 0) path.now }
{
    path.iter().any(|b| *b == 0)
}

// Whether a path goes on after its last component.
fn has_trailing_slash(path: &[u8]) -> bool
    requires { 0 < length path.now }
    ensures { result ≡ has_trailing_slash path.now }
{
    component_count(path) > 0 && path[path.len() - 1] == b'/'
}

// How many components a path has that is well formed, or what is wrong with it.
#[tactic(auto, unfolding(sequential_object::specs::Paths::path_form))]
pub fn well_formed(path: &[u8]) -> Result<usize, Errno>
    ensures ok { IfOk result (λ count. path_form path.now ≡ Ok (components_of path.now)) }
    ensures count { IfOk result (λ count. count ≡ length (components_of path.now)) }
    ensures fits { IfOk result (λ count. length path.now ≤ Limits.PATH_BYTES) }
    ensures err { IfErr result (λ error. path_form path.now ≡ Err error) }
{
    if path.is_empty() {
        return Err(Errno::ENOENT);
    }
    if path.len() > Limits::PATH_BYTES {
        return Err(Errno::ENAMETOOLONG);
    }
    if has_zero(path) || has_dots(path) || has_trailing_slash(path) {
        return Err(Errno::EINVAL);
    }
    if has_long_name(path) {
        return Err(Errno::ENAMETOOLONG);
    }
    Ok(component_count(path))
}
