ghost use Rattle.std.specs.Prelude.{◌≡◌, ◌<◌, ◌≤◌, [], length, map, nat_le, take, IsSome, IfSome};
ghost use Rattle.std.specs.Prelude.{IfNone, IfOk, IfErr, OnOk, OnErr, Ok, Err, Some, None};
ghost use Rattle.std.specs.Prelude.{option_map};
ghost use Rattle.std.specs.FinMap as fin;
ghost use Rattle.sequential_object.specs.Object.{path_cmp, FileNode, Directory as a_directory};
ghost use Rattle.sequential_object.specs.Paths.{components_of, node_at, resolved, walked};
ghost use Rattle.sequential_object.specs.Names.{has_entries, links_of};
ghost use Rattle.directories.specs.Naming.{added, removed, renamed};
ghost use Rattle.directories.specs.Naming.{removed_dir, removed_dir_at};
ghost use Rattle.directories.specs.Lookup.{NamesFile, looked_up, moved_name, renaming};
ghost use Rattle.directories.specs.Entries.{node_of, entry_of, IsAt};

use crate::entry::{Entry, Node};
use crate::path::{component_count, prefix_hash, well_formed};
use arrayvec::ArrayVec;
use posix_terms::{Errno, Limits};
use std::marker::Model;

/// All names of files and directories, at most `Limits::NAMES`. The root has no name: it is always
/// there. Contracts see the finite map from whole paths to what they name. No call takes memory.
#[derive(Drop)]
pub struct Names {
    entries: ArrayVec<Entry, { Limits::NAMES }>,
}

impl Model for Names {
    ghost use Rattle.sequential_object.specs.Names.{PathMap};
    ghost use Rattle.directories.specs.NameCode.{path_map_code};

    ghost Value = { PathMap };

    ghost coded = { path_map_code };

    ghost use Rattle.std.specs.Prelude.{map};
    ghost use Rattle.sequential_object.specs.Object.{path_cmp};
    ghost use Rattle.directories.specs.Entries.{AreDistinct, entry_of, names_of};

    ghost view = { λ n. names_of n.entries.items };

    ghost invariant = { λ n. AreDistinct path_cmp (map entry_of n.entries.items) };
}

impl Names {
    /// No name yet: there is only the root.
    #[tactic(auto, using(crate::proofs::NameLemmas::entries))]
    pub fn new() -> Names
        ensures { result ≡ fin.empty }
    {
        Names {
            entries: ArrayVec::new(),
        }
    }

    /// No name any more: there is only the root, as at first.
    #[tactic(auto, using(crate::proofs::NameLemmas::entries))]
    pub fn reset(&mut self)
        ensures { self.new ≡ fin.empty }
    {
        self.entries.clear();
    }

    /// What a path names: nothing, a file or a directory. It is refused where the path is not well formed
    /// or leads through what is not a directory.
    #[tactic(auto, unfolding(crate::specs::Lookup::looked_up))]
    pub fn resolve(&self, path: &[u8]) -> Result<Option<Node>, Errno>
        ensures ok { IfOk result (λ node. looked_up self.now path.now
            ≡ Ok (option_map node_of node)) }
        ensures err { IfErr result (λ error. looked_up self.now path.now ≡ Err error) }
    {
        let count = self.components(path)?;
        Ok(self.named(path, count))
    }

    /// Gives a file a name. Refused as in `resolve`, where the path names something already, and where
    /// there are as many names as there may be; then nothing changes.
    pub fn add(&mut self, path: &[u8], node: usize) -> Result<(), Errno>
        ensures ok { OnOk result (added self.old path.now (FileNode node) ≡ Ok self.new) }
        ensures err { IfErr result (λ error. (added self.old path.now (FileNode node) ≡ Err error)
            × (self.new ≡ self.old)) }
    {
        self.add_node(path, Node::File(node))
    }

    /// Makes a directory. Refused as in `add`.
    pub fn make_dir(&mut self, path: &[u8]) -> Result<(), Errno>
        ensures ok { OnOk result (added self.old path.now a_directory ≡ Ok self.new) }
        ensures err { IfErr result (λ error. (added self.old path.now a_directory ≡ Err error)
            × (self.new ≡ self.old)) }
    {
        self.add_node(path, Node::Directory)
    }

    /// Takes the name of a file away, and returns which file that was. Refused as in `resolve`, where the
    /// path names nothing, and where it names a directory; then nothing changes.
    #[tactic(auto, unfolding(crate::specs::Naming::removed))]
    pub fn remove(&mut self, path: &[u8]) -> Result<usize, Errno>
        ensures ok { IfOk result (λ node. removed self.old path.now ≡ Ok (self.new, node)) }
        ensures err { IfErr result (λ error. (removed self.old path.now ≡ Err error)
            × (self.new ≡ self.old)) }
    {
        let count = self.components(path)?;
        match self.named(path, count) {
            None => Err(Errno::ENOENT),
            Some(Node::Directory) => Err(Errno::EPERM),
            Some(Node::File(object)) => {
                self.remove_entry(path, count);
                Ok(object)
            }
        }
    }

    /// Gives a file a new name in the place of the old one, and returns the file that loses its
    /// name to it, if one does. Two names of one file both stay, also where they are the same.
    /// Refused as `check_rename` says; then nothing changes. It is not refused where there are as
    /// many names as there may be.
    #[tactic(auto, using(crate::proofs::NameLemmas::renames))]
    pub fn rename(&mut self, from: &[u8], to: &[u8]) -> Result<Option<usize>, Errno>
        ensures ok { IfOk result (λ lost. renamed self.old from.now to.now ≡ Ok (self.new, lost)) }
        ensures err { IfErr result (λ error. renamed self.old from.now to.now ≡ Err error) }
        ensures unchanged { OnErr result (self.new ≡ self.old) }
    {
        let (object, replaced) = self.check_rename(from, to)?;
        if replaced == Some(object) {
            return Ok(None);
        }
        self.move_name(from, to, object);
        Ok(replaced)
    }

    /// The file to rename, and the file that has the new name, if one has it. Refused, in this
    /// order, where the old path is refused as in `resolve`, names nothing (`ENOENT`) or names a
    /// directory (`EINVAL`), and where the new path is refused as in `resolve` or names a directory
    /// (`EISDIR`). The root is a directory.
    #[tactic(auto, unfolding(crate::specs::Lookup::renaming))]
    pub fn check_rename(&self, from: &[u8], to: &[u8]) -> Result<(usize, Option<usize>), Errno>
        ensures ok { IfOk result (λ files. renaming self.now from.now to.now ≡ Ok files) }
        ensures old { IfOk result (λ files. NamesFile self.now from.now files.0) }
        ensures fits { OnOk result (length to.now ≤ Limits.PATH_BYTES) }
        ensures err { IfErr result (λ error. renaming self.now from.now to.now ≡ Err error) }
    {
        let count = self.components(from)?;
        let object = match self.named(from, count) {
            None => return Err(Errno::ENOENT),
            Some(Node::Directory) => return Err(Errno::EINVAL),
            Some(Node::File(object)) => object,
        };
        let count = self.components(to)?;
        match self.named(to, count) {
            None => Ok((object, None)),
            Some(Node::Directory) => Err(Errno::EISDIR),
            Some(Node::File(replaced)) => Ok((object, Some(replaced))),
        }
    }

    /// Takes a directory away. Refused as `check_remove_dir` says; then nothing changes.
    pub fn remove_dir(&mut self, path: &[u8]) -> Result<(), Errno>
        ensures ok { OnOk result (removed_dir self.old path.now ≡ Ok self.new) }
        ensures err { IfErr result (λ error. (removed_dir self.old path.now ≡ Err error)
            × (self.new ≡ self.old)) }
    {
        self.check_remove_dir(path)?;
        self.remove_entry(path, component_count(path));
        Ok(())
    }

    /// Whether a directory may be taken away. Refused as in `resolve`, where the path names nothing, where
    /// it names a file, at the root, and where there are names inside.
    #[tactic(auto, unfolding(crate::specs::Naming::removed_dir))]
    pub fn check_remove_dir(&self, path: &[u8]) -> Result<(), Errno>
        ensures ok { OnOk result (removed_dir self.now path.now
            ≡ Ok (fin.remove self.now (components_of path.now))) }
        ensures err { IfErr result (λ error. removed_dir self.now path.now ≡ Err error) }
    {
        let count = self.components(path)?;
        match self.named(path, count) {
            None => Err(Errno::ENOENT),
            Some(Node::File(_)) => Err(Errno::ENOTDIR),
            Some(Node::Directory) => self.check_directory(path, count),
        }
    }

    /// Gives a new name, for which there is room: the path is one of
    /// which `resolve` found that it names nothing, and it
    /// is not looked up again. `add` and `make_dir` look first.
    #[tactic(auto, using(crate::proofs::NameLemmas::entries))]
    pub fn insert(&mut self, path: &[u8], node: Node)
        requires room { fin.len self.old < Limits.NAMES }
        requires fits { length path.now ≤ Limits.PATH_BYTES }
        requires missing { fin.get self.old (components_of path.now) ≡ None }
        ensures { self.new ≡ fin.insert self.old (components_of path.now) (node_of node) }
    {
        self.entries.push(Entry::new(path, node));
    }

    /// Takes a name away, if it is there. What it names, and whether anything is inside, is the caller's to know:
    /// `remove` and `remove_dir` look first.
    pub fn remove_name(&mut self, path: &[u8])
        ensures { self.new ≡ fin.remove self.old (components_of path.now) }
    {
        self.remove_entry(path, component_count(path));
    }

    /// Gives a file a new name in the place of the old one, which is there. What the new path
    /// names, and whether its prefix is there, is the caller's to know: `rename` looks first.
    #[tactic(auto, using(crate::proofs::NameLemmas::moving))]
    pub fn move_name(&mut self, from: &[u8], to: &[u8], object: usize)
        requires old { NamesFile self.old from.now object }
        requires fits { length to.now ≤ Limits.PATH_BYTES }
        ensures { self.new ≡ moved_name self.old from.now to.now object }
    {
        self.remove_entry(from, component_count(from));
        self.remove_entry(to, component_count(to));
        self.insert(to, Node::File(object));
    }

    /// Whether there are as many names as there may be.
    #[tactic(auto, using(crate::proofs::NameLemmas::entries))]
    pub fn is_full(&self) -> bool
        ensures { result ≡ nat_le Limits.NAMES (fin.len self.now) }
    {
        self.entries.is_full()
    }

    /// How many names a file has.
    #[tactic(auto, using(crate::proofs::NameLemmas::counting))]
    pub fn links(&self, node: usize) -> usize
        ensures count { result ≡ links_of self.now node }
        ensures within_limit { result ≤ Limits.NAMES }
    {
        let mut count = 0;
        for entry in self.entries.as_slice() {
            if entry.node.is_file(node) {
                count += 1;
            }
        }
        count
    }

    // How many components a path has that is well formed and whose prefix is there.
    fn components(&self, path: &[u8]) -> Result<usize, Errno>
        ensures ok { OnOk result (resolved self.now path.now ≡ Ok (components_of path.now)) }
        ensures count { IfOk result (λ count. count ≡ length (components_of path.now)) }
        ensures fits { OnOk result (length path.now ≤ Limits.PATH_BYTES) }
        ensures err { IfErr result (λ error. resolved self.now path.now ≡ Err error) }
    {
        let count = well_formed(path)?;
        self.walk(path, count)?;
        Ok(count)
    }

    // Whether all components but the last lead on.
    #[tactic(auto, using(crate::proofs::NameLemmas::walking))]
    fn walk(&self, path: &[u8], count: usize) -> Result<(), Errno>
        requires { count ≡ length (components_of path.now) }
        ensures ok { OnOk result (walked self.now [] (components_of path.now) ≡ Ok tt) }
        ensures err { IfErr result (λ error. walked self.now [] (components_of path.now)
            ≡ Err error) }
    {
        for passed in 0..count.saturating_sub(1) {
            match self.node(path, passed + 1) {
                None => return Err(Errno::ENOENT),
                Some(Node::File(_)) => return Err(Errno::ENOTDIR),
                Some(Node::Directory) => {}
            }
        }
        Ok(())
    }

    // What the first components of a path name.
    #[tactic(auto, using(crate::proofs::NameLemmas::entries, crate::proofs::NameLemmas::nodes))]
    fn node(&self, path: &[u8], count: usize) -> Option<Node>
        requires { count ≤ length (components_of path.now) }
        ensures { option_map node_of result
            ≡ node_at self.now (take count (components_of path.now)) }
    {
        if count == 0 {
            return Some(Node::Directory);
        }
        let entries = self.entries.as_slice();
        let at = position(entries, path, count)?;
        Some(entries[at].node)
    }

    // What all of them name.
    fn named(&self, path: &[u8], count: usize) -> Option<Node>
        requires { count ≡ length (components_of path.now) }
        ensures { option_map node_of result ≡ node_at self.now (components_of path.now) }
    {
        self.node(path, count)
    }

    #[tactic(auto, using(crate::proofs::NameLemmas::nodes), unfolding(crate::specs::Naming::added))]
    fn add_node(&mut self, path: &[u8], node: Node) -> Result<(), Errno>
        ensures ok { OnOk result (added self.old path.now (node_of node) ≡ Ok self.new) }
        ensures err { IfErr result (λ error. (added self.old path.now (node_of node) ≡ Err error)
            × (self.new ≡ self.old)) }
    {
        let count = self.components(path)?;
        if self.named(path, count).is_some() {
            return Err(Errno::EEXIST);
        }
        if self.is_full() {
            return Err(Errno::ENOSPC);
        }
        self.insert(path, node);
        Ok(())
    }

    // Without the entry of a path, if there is one.
    #[tactic(auto, using(crate::proofs::NameLemmas::entries))]
    fn remove_entry(&mut self, path: &[u8], count: usize)
        requires { count ≡ length (components_of path.now) }
        ensures removed { self.new ≡ fin.remove self.old (components_of path.now) }
        ensures few { fin.len self.old ≤ Limits.NAMES }
    {
        match position(self.entries.as_slice(), path, count) {
            Some(at) => {
                let _ = self.entries.remove(at);
            }
            None => {}
        }
    }

    // Whether what is a directory may be taken away.
    fn check_directory(&self, path: &[u8], count: usize) -> Result<(), Errno>
        requires { count ≡ length (components_of path.now) }
        ensures ok { OnOk result (removed_dir_at self.now (components_of path.now)
            (Some a_directory) ≡ Ok (fin.remove self.now (components_of path.now))) }
        ensures err { IfErr result (λ error. removed_dir_at self.now (components_of path.now)
            (Some a_directory) ≡ Err error) }
    {
        if count == 0 {
            return Err(Errno::EBUSY);
        }
        if self.has_entries(path, count) {
            return Err(Errno::ENOTEMPTY);
        }
        Ok(())
    }

    // Whether there are names inside a directory.
    #[tactic(auto, using(crate::proofs::NameLemmas::leading))]
    fn has_entries(&self, path: &[u8], count: usize) -> bool
        requires { count ≡ length (components_of path.now) }
        ensures { result ≡ has_entries self.now (components_of path.now) }
    {
        for entry in self.entries.as_slice() {
            if entry.is_inside(path, count) {
                return true;
            }
        }
        false
    }
}

// The place of the entry that the first components of a path name.
#[tactic(auto, using(crate::proofs::NameLemmas::finding))]
fn position(entries: &[Entry], path: &[u8], count: usize) -> Option<usize>
    ensures found { IfSome result (λ i. IsAt entries.now i (take count (components_of path.now))) }
    ensures missing { IfNone result
        (fin.find path_cmp (take count (components_of path.now)) (map entry_of entries.now) ≡ None) }
{
    let hash = prefix_hash(path, count);
    for i in 0..entries.len() {
        if entries[i].has_components(path, count, hash) {
            return Some(i);
        }
    }
    None
}
