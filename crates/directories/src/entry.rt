ghost use Rattle.std.specs.Prelude.{◌≡◌, ◌≤◌, length, nat_eq, take};
ghost use Rattle.std.specs.Cmp.Lexicographic.{pointwise};
ghost use Rattle.sequential_object.specs.Descriptors.{is_file};
ghost use Rattle.sequential_object.specs.Paths.{components_of};
ghost use Rattle.sequential_object.specs.Names.{is_inside};
ghost use Rattle.directories.specs.Hashes.{hash_of};

use crate::path::{component_count, has_prefix_components, prefix_hash};
use arrayvec::ArrayVec;
use posix_terms::Limits;
use std::hash::{FoldHasher, Hasher};

/// What a path names.
#[derive(Clone, Copy, Debug, PartialEq, Eq)]
pub enum Node {
    /// A file, by the number of its object.
    File(usize),
    Directory,
}

impl Node {
    ghost use Rattle.directories.specs.Entries.{node_of};

    /// Whether this is the file of an object.
    pub fn is_file(self, object: usize) -> bool
        ensures { result ≡ is_file (node_of self) object }
    {
        match self {
            Node::File(other) => other == object,
            Node::Directory => false,
        }
    }
}

/// One name, with its whole path as it was written.
#[derive(Drop)]
pub struct Entry {
    path: ArrayVec<u8, { Limits::PATH_BYTES }>,
    pub node: Node,
    // A hash of the components of the path, and how many those are.
    hash: u64,
    count: usize,
    ghost hashed: { hash ≡ hash_of (components_of path.items) },
    ghost counted: { count ≡ length (components_of path.items) },
}

impl Default for Entry {
    fn default() -> Entry {
        Entry {
            path: ArrayVec::new(),
            node: Node::Directory,
            hash: FoldHasher::default().finish(),
            count: 0,
        }
    }
}

impl Entry {
    /// The entry of a path.
    pub fn new(path: &[u8], node: Node) -> Entry
        requires fits { length path.now ≤ Limits.PATH_BYTES }
        ensures path { result.path.items ≡ path.now }
        ensures node { result.node ≡ node }
    {
        let count = component_count(path);
        let hash = prefix_hash(path, count);
        let path = ArrayVec::try_from(path).unwrap();
        Entry {
            path,
            node,
            hash,
            count,
        }
    }

    /// Whether its path has the first components of another path, whose hash this is. They are
    /// compared in full only where the hashes are equal.
    #[tactic(auto, using(crate::proofs::HashLemmas::hash_apart))]
    pub fn has_components(&self, path: &[u8], count: usize, hash: u64) -> bool
        requires { hash ≡ hash_of (take count (components_of path.now)) }
        ensures { result ≡ pointwise (pointwise nat_eq) (components_of self.now.path.items)
            (take count (components_of path.now)) }
    {
        self.hash == hash && has_prefix_components(self.path.as_slice(), path, count)
    }

    /// Whether its path leads on from that of a directory.
    pub fn is_inside(&self, directory: &[u8], count: usize) -> bool
        requires { count ≡ length (components_of directory.now) }
        ensures { result ≡ is_inside (components_of directory.now)
            (components_of self.now.path.items) }
    {
        count < self.count && has_prefix_components(directory, self.path.as_slice(), count)
    }
}
