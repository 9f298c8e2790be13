ghost use Rattle.std.specs.Prelude.{◌≡◌, ◌<◌, ◌≤◌, [], pos, ◌^◌, option_map, slice_index_or};
ghost use Rattle.std.specs.Prelude.{slice_set, true, IfOk, IfErr, IfSome, Some, None, Ok, Err};
ghost use Rattle.std.specs.Prelude.{if◌then◌else◌};
ghost use Rattle.std.specs.FinMap as fin;
ghost use Rattle.directories.specs.Entries.{node_of};
ghost use Rattle.directories.specs.Lookup.{moved_name};
ghost use Rattle.sequential_object.specs.Paths.{components_of};
ghost use Rattle.file_descriptions.specs.Descriptions.{AreSound, ContainsKey, description_at};
ghost use Rattle.file_descriptions.specs.Descriptions.{is_last_held, with_flags, with_offset};
ghost use Rattle.file_descriptions.specs.Descriptions.{ends_of};
ghost use Rattle.sequential_object.specs.Meant.{moved_to};
ghost use Rattle.descriptor_table.specs.Shows.{Shows, birth_of};
ghost use Rattle.sequential_object.specs.Object.{State, FileNode, empty_state};
ghost use Rattle.descriptor_table.specs.Changes.{CanMove, IsFreeNumber, IsFreePath, IsNextObject};
ghost use Rattle.descriptor_table.specs.Changes.{NamesUsed, Refers, let_go, opened, shared};
ghost use Rattle.descriptor_table.specs.Changes.{with_file, with_object, with_paths, without_gone};
ghost use Rattle.descriptor_table.specs.Table.{IsSound, empty_table, key_at, described};
ghost use Rattle.descriptor_table.specs.Table.{lowest_free, free_object, is_closed, is_gone};
ghost use Rattle.descriptor_table.specs.Table.{is_used, two_numbers};

use crate::slots::lowest_from;
use directories::{Names, Node};
use file_descriptions::{Description, Descriptions, StatusFlags};
use posix_terms::{Access, Bytes, End, Errno, Limits};
use std::alloc::{AllocError, Global};
use std::marker::Model;

/// The descriptors, the descriptions that they refer to, the names and the numbers of the objects: all
/// but what the objects hold. Contracts see these as one value.
#[derive(Drop)]
pub struct Table {
    descriptors: [Option<usize>; Limits::DESCRIPTORS],
    descriptions: Descriptions,
    names: Names,
    objects: [Option<u128>; Limits::OBJECTS],
    made_objects: u128,
    alloc: Global,
}

impl Model for Table {
    ghost use Rattle.descriptor_table.specs.Table.{TableState};
    ghost use Rattle.descriptor_table.specs.TableCode.{table_code};

    ghost Value = { TableState };

    ghost coded = { table_code };

    ghost use Rattle.descriptor_table.specs.Table.{IsSound};

    ghost view = { λ t. record {
      descriptors = t.descriptors;
      descriptions = t.descriptions;
      paths = t.names;
      objects = t.objects;
      made_objects = t.made_objects;
    } };

    ghost invariant = { λ t. IsSound
        (record {
          descriptors = t.descriptors;
          descriptions = t.descriptions;
          paths = t.names;
          objects = t.objects;
          made_objects = t.made_objects;
        }) };
}

impl Table {
    /// No descriptor is open, and there is only the root. This takes all the memory that a table ever
    /// needs.
    #[tactic(auto, using(crate::proofs::SoundLemmas::sound))]
    pub fn new(alloc: Global) -> Result<Table, AllocError>
        ensures empty { IfOk result (λ t. t ≡ empty_table) }
        ensures shows { IfOk result (λ t. Shows t empty_state) }
    {
        Ok(Table {
            descriptors: [None; Limits::DESCRIPTORS],
            descriptions: Descriptions::new(alloc)?,
            names: Names::new(),
            objects: [None; Limits::OBJECTS],
            made_objects: 0,
            alloc,
        })
    }

    /// No descriptor is open any more, there is only the root, and nothing was ever made, as at
    /// first. It takes no memory.
    #[tactic(auto, using(crate::proofs::SoundLemmas::sound))]
    pub fn reset(&mut self)
        ensures { self.new ≡ empty_table }
    {
        self.descriptors = [None; Limits::DESCRIPTORS];
        self.descriptions.reset();
        self.names.reset();
        self.objects = [None; Limits::OBJECTS];
        self.made_objects = 0;
    }

    /// The least number from `from` on that is not open.
    #[tactic(auto, using(crate::proofs::SoundLemmas::sound))]
    pub fn lowest_free(&self, from: usize) -> Option<i64>
        ensures { result ≡ option_map (λ n. pos n) (lowest_free self.now from) }
    {
        match self.free_number(from) {
            Some(number) => Some(number as i64),
            None => None,
        }
    }

    /// The offset of a description.
    pub fn offset(&self, key: usize) -> u64
        requires { ContainsKey self.now.descriptions key }
        ensures { result ≡ (description_at self.now.descriptions key).offset }
    {
        self.descriptions.offset(key)
    }

    /// The birth of a description: how many were made before it.
    pub fn birth(&self, key: usize) -> u128
        requires { ContainsKey self.now.descriptions key }
        ensures { result ≡ birth_of self.now key }
    {
        self.descriptions.birth(key)
    }

    /// Sets the offset of a description. What the table shows goes along (`shows`).
    #[tactic(auto, using(crate::proofs::SoundLemmas::sound))]
    pub fn set_offset(&mut self, key: usize, offset: u64)
        requires { ContainsKey self.old.descriptions key }
        ensures shows { (s : State) → Shows self.old s
            → let birth = birth_of self.old key in
            Shows self.new
            (moved_to s (Some offset) (Some birth) (fin.get s.descriptions birth)) }
        ensures set { self.new ≡ record self.old {
          descriptions =
              with_offset self.old.descriptions key offset;
        } }
    {
        self.known();
        self.descriptions.set_offset(key, offset);
    }

    /// How many descriptions have the ends of an object: of a pipe its read end and its write end, of a
    /// socket pair its side 0 and its side 1. Those of a file or a door all count first.
    pub fn ends(&self, node: usize) -> (usize, usize)
        ensures { result ≡ ends_of self.now.descriptions node }
    {
        self.descriptions.ends(node)
    }

    /// How many descriptions and how many objects were ever made. With it comes what holds of every table
    /// (`sound`, `births`).
    pub fn made(&self) -> (u128, u128)
        ensures made { result ≡ (self.now.descriptions.made, self.now.made_objects) }
        ensures sound { IsSound self.now }
        ensures births { AreSound self.now.descriptions }
    {
        (self.descriptions.made(), self.made_objects)
    }

    // What holds of every table, for the proofs of its callers.
    pub(crate) fn known(&self)
        ensures table { IsSound self.now }
        ensures descriptions { AreSound self.now.descriptions }
    {
        let _ = self.made();
    }

    // The key of the description that a descriptor refers to.
    #[tactic(auto, using(crate::proofs::SoundLemmas::sound))]
    fn key_at(&self, descriptor: i64) -> Option<usize>
        ensures key { result ≡ key_at self.now descriptor }
        ensures known { IfSome result (λ key. ContainsKey self.now.descriptions key) }
    {
        let number = usize::try_from(descriptor).ok()?;
        let slots = self.descriptors.as_slice();
        if number >= slots.len() {
            return None;
        }
        slots[number]
    }

    // That description, with its key.
    pub(crate) fn described(&self, descriptor: i64) -> Result<(usize, Description), Errno>
        ensures found { result ≡ described self.now descriptor }
        ensures key { IfOk result (λ found. key_at self.now descriptor ≡ Some found.0) }
        ensures shut { IfErr result (λ error. key_at self.now descriptor ≡ None) }
        ensures known { IfOk result (λ found. ContainsKey self.now.descriptions found.0) }
    {
        match self.key_at(descriptor) {
            Some(key) => Ok((key, self.descriptions.description(key))),
            None => Err(Errno::EBADF),
        }
    }

    // The least descriptor number from one on that is not open.
    #[tactic(auto, using(crate::proofs::SoundLemmas::sound))]
    pub(crate) fn free_number(&self, from: usize) -> Option<usize>
        ensures lowest { result ≡ lowest_free self.now from }
        ensures inside { IfSome result (λ n. n < Limits.DESCRIPTORS) }
        ensures above { IfSome result (λ n. from ≤ n) }
        ensures free { IfSome result (λ n. key_at self.now (pos n) ≡ None) }
    {
        lowest_from(self.descriptors.as_slice(), from)
    }

    // The two least descriptor numbers that are not open.
    #[tactic(auto, using(crate::proofs::SoundLemmas::sound))]
    pub(crate) fn free_two(&self) -> Result<(usize, usize), Errno>
        ensures two { result ≡ two_numbers self.now }
        ensures inside { IfOk result (λ n.
            (n.0 < Limits.DESCRIPTORS) × (n.1 < Limits.DESCRIPTORS)) }
        ensures free { IfOk result (λ n. (key_at self.now (pos n.0) ≡ None)
            × (key_at self.now (pos n.1) ≡ None) × (n.0 < n.1)) }
    {
        let first = self.free_number(0).ok_or(Errno::EMFILE)?;
        let second = self.free_number(first + 1).ok_or(Errno::EMFILE)?;
        Ok((first, second))
    }

    // No bytes, which takes no memory.
    pub(crate) fn no_bytes(&self) -> Bytes
        ensures { result ≡ [] }
    {
        Bytes::from_vec(Vec::new(self.alloc))
    }

    // The number that a new object gets.
    #[tactic(auto, using(crate::proofs::SoundLemmas::sound))]
    pub(crate) fn free_object(&self) -> Option<usize>
        ensures lowest { result ≡ free_object self.now }
        ensures inside { IfSome result (λ n. n < Limits.OBJECTS) }
        ensures free { IfSome result (λ n. slice_index_or self.now.objects n None ≡ None) }
    {
        lowest_from(self.objects.as_slice(), 0)
    }

    // Whether no description has an object.
    pub(crate) fn is_closed(&self, object: usize) -> bool
        ensures { result ≡ is_closed self.now object }
    {
        let (first, second) = self.ends(object);
        first == 0 && second == 0
    }

    // The names. The file of each is there.
    pub(crate) fn names(&self) -> &Names
        ensures names { result.now ≡ self.now.paths }
        ensures sound { IsSound self.now }
    {
        &self.names
    }

    // A descriptor that is not open refers to the description of another one.
    pub(crate) fn share(&mut self, number: usize, key: usize)
        requires free { IsFreeNumber self.old number }
        requires known { ContainsKey self.old.descriptions key }
        ensures { self.new ≡ shared self.old number key }
    {
        self.descriptions.hold(key);
        self.descriptors[number] = Some(key);
    }

    // A descriptor refers to its description no longer. Where that was the last one, its object is given.
    pub(crate) fn let_go(&mut self, number: usize, key: usize) -> Option<usize>
        requires refers { Refers self.old number key }
        ensures ended { result ≡ (if is_last_held self.old.descriptions key then Some
            (description_at self.old.descriptions key).node else None) }
        ensures left { self.new ≡ let_go self.old number key }
    {
        let ended = self.descriptions.drop_one(key);
        self.descriptors[number] = None;
        ended
    }

    // A descriptor that is not open refers to a new description of an end of an object; its key is given.
    pub(crate) fn open_number(
        &mut self,
        number: usize,
        object: usize,
        end: End,
        access: Access,
        flags: StatusFlags,
    ) -> usize
        requires free { IsFreeNumber self.old number }
        requires births { self.old.descriptions.made ≤ 2 ^ 127 }
        requires there { is_used self.old object ≡ true }
        ensures fresh { fin.get self.old.descriptions.by_key result ≡ None }
        ensures opened { self.new ≡ opened self.old number result object «end» access flags }
    {
        let key = self.descriptions.make(object, end, access, flags).unwrap();
        self.descriptors[number] = Some(key);
        key
    }

    // The number of an object is free if nothing refers to it any more.
    pub(crate) fn free_if_gone(&mut self, object: usize)
        ensures { self.new ≡ without_gone self.old object }
    {
        if self.is_closed(object) && self.names.links(object) == 0 {
            self.remove_object(object);
        }
    }

    // The number of an object is free.
    #[tactic(auto, using(crate::proofs::SoundLemmas::sound))]
    fn remove_object(&mut self, object: usize)
        requires { is_gone self.old object ≡ true }
        ensures { self.new ≡ record self.old { objects = slice_set self.old.objects object None } }
    {
        let slots = self.objects.as_slice();
        if object < slots.len() {
            self.objects[object] = None;
        }
    }

    // A new file, which a path names, under a number that is free.
    #[tactic(auto, using(crate::proofs::SoundLemmas::sound))]
    pub(crate) fn make_file(&mut self, path: &[u8], object: usize)
        requires births { self.old.made_objects < 2 ^ 127 }
        requires path { IsFreePath self.old.paths path.now }
        requires next { IsNextObject self.old object }
        ensures made { self.new ≡ with_file self.old
            (fin.insert self.old.paths (components_of path.now) (FileNode object)) object }
        ensures there { is_used self.new object ≡ true }
    {
        let birth = self.made_objects;
        self.names.insert(path, Node::File(object));
        self.objects[object] = Some(birth);
        self.made_objects = birth + 1;
    }

    // A new object that no path names.
    #[tactic(auto, using(crate::proofs::SoundLemmas::sound))]
    pub(crate) fn make_object(&mut self, object: usize)
        requires births { self.old.made_objects < 2 ^ 127 }
        requires next { IsNextObject self.old object }
        ensures made { self.new ≡ with_object self.old object }
        ensures there { is_used self.new object ≡ true }
    {
        let birth = self.made_objects;
        self.objects[object] = Some(birth);
        self.made_objects = birth + 1;
    }

    // Sets both flags of a description.
    pub(crate) fn set_flags(&mut self, key: usize, flags: StatusFlags)
        requires { ContainsKey self.old.descriptions key }
        ensures { self.new ≡ record self.old {
          descriptions =
              with_flags self.old.descriptions key flags;
        } }
    {
        self.descriptions.set_flags(key, flags);
    }

    // A new name, of a file or of a new directory.
    #[tactic(auto, using(crate::proofs::SoundLemmas::sound))]
    pub(crate) fn add_name(&mut self, path: &[u8], node: Node)
        requires path { IsFreePath self.old.paths path.now }
        requires used { NamesUsed self.old (node_of node) }
        ensures { self.new ≡ with_paths self.old
            (fin.insert self.old.paths (components_of path.now) (node_of node)) }
    {
        self.names.insert(path, node);
    }

    // A name of a file in the place of another one.
    #[tactic(auto, using(crate::proofs::SoundLemmas::sound))]
    pub(crate) fn move_name(&mut self, from: &[u8], to: &[u8], object: usize)
        requires { CanMove self.old.paths from.now to.now object }
        ensures { self.new
            ≡ with_paths self.old (moved_name self.old.paths from.now to.now object) }
    {
        self.names.move_name(from, to, object);
    }

    // A name less.
    #[tactic(auto, using(crate::proofs::SoundLemmas::sound))]
    pub(crate) fn remove_name(&mut self, path: &[u8])
        ensures { self.new ≡ with_paths self.old
            (fin.remove self.old.paths (components_of path.now)) }
    {
        self.names.remove_name(path);
    }
}
