ghost use Rattle.std.specs.Prelude.{◌≡◌, ◌<◌, ◌≤◌, ◌^◌, ◌↔◌, IsTrue, IsSome, IfOk, IfSome, IfNone};
ghost use Rattle.std.specs.Prelude.{Some, None, if◌then◌else◌};
ghost use Rattle.std.specs.FinMap as map;
ghost use Rattle.slab.specs.Slab.{Updates, ContainsKey as HasKey};
ghost use Rattle.file_descriptions.specs.Descriptions.{no_descriptions, ContainsKey};
ghost use Rattle.file_descriptions.specs.Descriptions.{description_at, new_description};
ghost use Rattle.file_descriptions.specs.Descriptions.{with_description, with_new, without};
ghost use Rattle.file_descriptions.specs.Descriptions.{with_holder, is_last_held, without_holder};
ghost use Rattle.file_descriptions.specs.Descriptions.{with_flags, with_offset, ends_of, AreSound};

use crate::description::{Description, StatusFlags};
use posix_terms::{Access, End, Limits};
use slab::Slab;
use std::alloc::{AllocError, Global};
use std::marker::Model;

/// All open file descriptions, at most `Limits::DESCRIPTORS`, by keys that are used again. Contracts see
/// the finite map of them, and how many were ever made: by that count, and not by its key, a description
/// stands for one of the sequential object, which uses no key twice.
#[derive(Drop)]
pub struct Descriptions {
    slots: Slab<Description>,
    made: u128,
}

impl Model for Descriptions {
    ghost use Rattle.file_descriptions.specs.Descriptions.{DescriptionMap};
    ghost use Rattle.file_descriptions.specs.DescriptionCode.{description_map_code};

    ghost Value = { DescriptionMap };

    ghost coded = { description_map_code };

    ghost use Rattle.std.specs.Prelude.{◌≤◌};
    ghost use Rattle.file_descriptions.specs.Descriptions.{AreSound, described};

    ghost view = { λ d. record { by_key = described d.slots.slots; made = d.made } };

    ghost invariant = { λ d. AreSound (record { by_key = described d.slots.slots; made = d.made })
        × (32 ≤ d.slots.capacity) };
}

impl Descriptions {
    /// No descriptions yet. This takes all the memory that they ever need.
    #[tactic(auto, using(crate::proofs::SlotLemmas::slots, crate::proofs::SoundLemmas::sound))]
    pub fn new(alloc: Global) -> Result<Descriptions, AllocError>
        ensures { IfOk result (λ d. d ≡ no_descriptions) }
    {
        Ok(Descriptions {
            slots: Slab::with_capacity(alloc, Limits::DESCRIPTORS)?,
            made: 0,
        })
    }

    /// No descriptions any more, and none was ever made, as at first. It takes no memory.
    #[tactic(auto, using(crate::proofs::SlotLemmas::slots, crate::proofs::SoundLemmas::sound))]
    pub fn reset(&mut self)
        ensures { self.new ≡ no_descriptions }
    {
        self.slots.clear();
        self.made = 0;
    }

    /// A new description, at offset 0 and with one holder, under a key that is free. There is none where
    /// there are as many as there may be, and then nothing changes.
    #[tactic(auto, using(crate::proofs::SlotLemmas::slots, crate::proofs::SoundLemmas::sound))]
    pub fn make(
        &mut self,
        node: usize,
        end: End,
        access: Access,
        flags: StatusFlags,
    ) -> Option<usize>
        requires { self.old.made ≤ 2 ^ 127 }
        ensures room { IsSome result ↔ (map.len self.old.by_key < Limits.DESCRIPTORS) }
        ensures free { IfSome result (λ key. map.get self.old.by_key key ≡ None) }
        ensures made { IfSome result (λ key. self.new
            ≡ with_new self.old key (new_description node end access flags self.old.made)) }
        ensures full { IfNone result (self.new ≡ self.old) }
        ensures sound { AreSound self.old }
    {
        if self.slots.len() >= Limits::DESCRIPTORS {
            return None;
        }
        let description = Description {
            node,
            end,
            access,
            offset: 0,
            flags,
            holders: 1,
            birth: self.made,
        };
        self.made += 1;
        Some(self.slots.insert_reserved(description))
    }

    /// How many descriptions were ever made.
    pub fn made(&self) -> u128
        ensures made { result ≡ self.now.made }
        ensures sound { AreSound self.now }
    {
        self.made
    }

    /// Whether there is a description under this key.
    #[tactic(auto, using(crate::proofs::SlotLemmas::slots))]
    pub fn contains(&self, key: usize) -> bool
        ensures { IsTrue result ↔ ContainsKey self.now key }
    {
        self.slots.contains(key)
    }

    /// The description under a key.
    #[tactic(auto, using(crate::proofs::SlotLemmas::slots, crate::proofs::SoundLemmas::sound))]
    pub fn description(&self, key: usize) -> Description
        requires { ContainsKey self.now key }
        ensures value { result ≡ description_at self.now key }
        ensures sound { AreSound self.now }
    {
        self.slots[key]
    }

    /// One descriptor more refers to the description.
    pub fn hold(&mut self, key: usize)
        requires known { ContainsKey self.old key }
        requires countable { (description_at self.old key).holders < usize.MAX }
        ensures { self.new ≡ with_holder self.old key }
    {
        let description = self.description(key);
        self.replace(
            key,
            Description {
                holders: description.holders + 1,
                ..description
            },
        );
    }

    /// One descriptor less refers to the description. Where that was the last one the description ends,
    /// and the number of its object is given.
    pub fn drop_one(&mut self, key: usize) -> Option<usize>
        requires { ContainsKey self.old key }
        ensures ended { result ≡ (if is_last_held self.old key then Some
            (description_at self.old key).node else None) }
        ensures left { self.new ≡ without_holder self.old key }
    {
        let description = self.description(key);
        if description.holders == 1 {
            self.remove(key);
            return Some(description.node);
        }
        self.replace(
            key,
            Description {
                holders: description.holders - 1,
                ..description
            },
        );
        None
    }

    /// The flags of the description.
    pub fn flags(&self, key: usize) -> StatusFlags
        requires { ContainsKey self.now key }
        ensures { result ≡ (description_at self.now key).flags }
    {
        self.description(key).flags
    }

    /// The birth of the description: how many had been made before it. Keys are used again, and
    /// births are not.
    pub fn birth(&self, key: usize) -> u128
        requires { ContainsKey self.now key }
        ensures { result ≡ (description_at self.now key).birth }
    {
        self.description(key).birth
    }

    /// The offset of the description.
    pub fn offset(&self, key: usize) -> u64
        requires { ContainsKey self.now key }
        ensures { result ≡ (description_at self.now key).offset }
    {
        self.description(key).offset
    }

    /// Sets both flags of the description.
    pub fn set_flags(&mut self, key: usize, flags: StatusFlags)
        requires { ContainsKey self.old key }
        ensures { self.new ≡ with_flags self.old key flags }
    {
        let description = self.description(key);
        self.replace(
            key,
            Description {
                flags,
                ..description
            },
        );
    }

    /// Sets the offset of the description.
    pub fn set_offset(&mut self, key: usize, offset: u64)
        requires { ContainsKey self.old key }
        ensures { self.new ≡ with_offset self.old key offset }
    {
        let description = self.description(key);
        self.replace(
            key,
            Description {
                offset,
                ..description
            },
        );
    }

    /// How many descriptions have the ends of an object: of a pipe its read end and its write end, of a
    /// socket pair its side 0 and its side 1. Those of a file or a door all count first.
    pub fn ends(&self, node: usize) -> (usize, usize)
        ensures { result ≡ ends_of self.now node }
    {
        let mut first = 0;
        let mut second = 0;
        for (_, description) in self.slots.iter() {
            if description.node == node {
                if description.end.is_first() {
                    first += 1;
                } else {
                    second += 1;
                }
            }
        }
        (first, second)
    }

    // Puts another description, of the same birth, under a key.
    #[tactic(auto, using(crate::proofs::SlotLemmas::slots, crate::proofs::SoundLemmas::sound))]
    fn replace(&mut self, key: usize, description: Description)
        requires known { ContainsKey self.old key }
        requires held { 1 ≤ description.holders }
        requires same_birth { description.birth ≡ (description_at self.old key).birth }
        ensures { self.new ≡ with_description self.old key description }
    {
        put(&mut self.slots, key, description);
    }

    // The description is gone.
    #[tactic(auto, using(crate::proofs::SlotLemmas::slots, crate::proofs::SoundLemmas::sound))]
    fn remove(&mut self, key: usize)
        requires { ContainsKey self.old key }
        ensures { self.new ≡ without self.old key }
    {
        let _ = self.slots.remove(key);
    }
}

// Writes one slot.
fn put(slots: &mut Slab<Description>, key: usize, description: Description)
    requires { HasKey slots.old key }
    ensures updates { Updates slots.old slots.new key (Some description) }
    ensures capacity { slots.new.capacity ≡ slots.old.capacity }
{
    slots[key] = description;
}
