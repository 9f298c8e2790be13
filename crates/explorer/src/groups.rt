ghost use Rattle.std.specs.Prelude.{◌≡◌, ◌↔◌, ◌<◌, ◌+◌, ◌^◌, [], All, IsTrue, List, OnErr, OnOk};
ghost use Rattle.std.specs.Prelude.{length, map, slice_index_or};
ghost use Rattle.explorer.specs.Groups.{Joins, runs_of};
ghost use Rattle.explorer.specs.Numbers.{number_in, number_of};
ghost use Rattle.explorer.specs.declared.groups.Group.{Group};

use crate::numbers::number_of;
use crate::observation::Observation;
use std::alloc::{AllocError, Global};
use std::marker::Model;

/// The runs of a trial in which the threads saw the same.
#[derive(Debug, Drop)]
pub struct Group {
    /// The case of the first of them.
    pub first: u64,
    /// How many they are.
    pub runs: u64,
    pub observation: Observation,
}

/// Groups of runs, in the order of their first runs. Contracts see the list of them.
#[derive(Debug, Drop)]
pub struct Groups {
    groups: Vec<Group>,
    // The number of what was seen in each, so that few are compared.
    numbers: Vec<u64>,
}

impl Model for Groups {
    ghost Value = { List Group };

    ghost invariant = { λ g. g.numbers.items ≡ map number_in g.groups.items };

    ghost view = { λ g. g.groups.items };
}

impl Groups {
    /// No groups. It takes no memory.
    pub fn new(alloc: Global) -> Groups
        ensures { result ≡ [] }
    {
        Groups {
            groups: Vec::new(alloc),
            numbers: Vec::new(alloc),
        }
    }

    /// The groups, in order.
    pub fn as_slice(&self) -> &[Group]
        ensures { result.now ≡ self.now }
    {
        self.groups.as_slice()
    }

    /// How many runs there are in all.
    pub fn runs(&self) -> u64
        requires { runs_of self.now < 2 ^ 64 }
        ensures { result ≡ runs_of self.now }
    {
        let mut runs = 0;
        for group in &self.groups {
            runs += group.runs;
        }
        runs
    }

    /// The groups, in order, as a list of its own. It takes no memory.
    pub fn into_vec(self) -> Vec<Group>
        ensures { result.items ≡ self }
    {
        self.groups
    }

    /// The run of a case joins the group in which the same was seen, or else is the first of a new
    /// one. Without memory for that all is as it was.
    pub fn join(&mut self, case: u64, observation: Observation) -> Result<(), AllocError>
        requires { All (λ (group : Group). group.runs + 1 < 2 ^ 64) self.old }
        ensures ok { OnOk result (Joins case observation self.old self.new) }
        ensures err { OnErr result (self.new ≡ self.old) }
    {
        let number = number_of(&observation.seen);
        for i in 0..self.groups.len() {
            if self.has_seen(i, number, &observation) {
                self.groups[i].runs += 1;
                return Ok(());
            }
        }
        self.groups.push(Group {
            first: case,
            runs: 1,
            observation,
        })?;
        if self.numbers.push(number).is_err() {
            let _ = self.groups.pop();
            return Err(AllocError);
        }
        Ok(())
    }

    // Whether the same was seen in the group at this place, where this is its number.
    fn has_seen(&self, place: usize, number: u64, observation: &Observation) -> bool
        requires inside { place < length self.now }
        requires its { number ≡ number_of observation.now.seen }
        ensures { (d : Group)
            → let group = slice_index_or self.now place d in
            IsTrue result ↔ (group.observation ≡ observation.now) }
    {
        self.numbers[place] == number && self.groups[place].observation.is_same(observation)
    }
}
