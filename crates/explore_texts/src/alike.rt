ghost use Rattle.std.specs.Prelude.{◌≡◌, ◌↔◌, ◌+◌, ◌<◌, ◌^◌, [], All, IfOk, IsTrue, OnOk, length};
ghost use Rattle.std.specs.Prelude.{map, slice_index_or};
ghost use Rattle.explorer.specs.Groups.{runs_of};
ghost use Rattle.explore_texts.specs.Alike.{AllJoin, AreAlike, IsNext, Joins, place_of, runs_in};
ghost use Rattle.explore_texts.specs.Alike.{unmet_of};
ghost use Rattle.explore_texts.specs.Numbers.{number_in};

use crate::looked::Looked;
use command_inputs::UnmetLine;
use comparator::{Verdict, compare};
use explorer::{Group, Groups, number_of};
use posix_terms::Bytes;
use std::alloc::{AllocError, Global};

/// Where an expectation stands: its thread, and its line in the text of that.
#[derive(Clone, Copy, Debug, PartialEq, Eq)]
pub struct UnmetPlace {
    pub thread: usize,
    pub line: usize,
}

/// Runs that are alike: the first group of them, with the number of all, and what is looked at in
/// them.
#[derive(Debug, Drop)]
pub struct AlikeRuns {
    pub group: Group,
    pub looked: Looked,
}

impl AlikeRuns {
    // Where the expectation stands that is not met, if there is one.
    fn unmet_place(&self) -> Option<UnmetPlace>
        ensures { result ≡ unmet_of self.now }
    {
        match &self.looked.unmet {
            Some(unmet) => Some(unmet_place(unmet)),
            None => None,
        }
    }

    // A number for what is compared of what their threads saw.
    fn number(&self) -> u64
        ensures { result ≡ number_in self.now }
    {
        number_of(self.looked.compared(&self.group.observation))
    }

    // Whether these and others are alike.
    fn is_alike(&self, other: &AlikeRuns) -> bool
        ensures { IsTrue result ↔ AreAlike self.now other.now }
    {
        let one_seen = self.looked.compared(&self.group.observation);
        let other_seen = other.looked.compared(&other.group.observation);
        self.unmet_place() == other.unmet_place()
            && self.looked.judgement == other.looked.judgement
            && self.group.observation.ends_alike(&other.group.observation)
            && matches!(compare(one_seen, other_seen), Verdict::Same)
    }
}

fn unmet_place(unmet: &UnmetLine) -> UnmetPlace
    ensures { result ≡ place_of unmet.now }
{
    UnmetPlace {
        thread: unmet.thread,
        line: unmet.line,
    }
}

/// The runs of groups that are alike. Those of which the same expectation is not met stand
/// together, where the first of them was seen, and else they stand in the order of the groups. With
/// `raw` the numbers of descriptors are compared as they are. An error means out of memory.
pub fn alike_runs(
    alloc: Global,
    texts: &[Bytes],
    raw: bool,
    groups: Groups,
) -> Result<Vec<AlikeRuns>, AllocError>
    requires { runs_of groups < 2 ^ 64 }
    ensures joined { IfOk result (λ all. AllJoin raw texts.now groups [] all.items) }
    ensures runs { IfOk result (λ all. runs_in all.items ≡ runs_of groups) }
{
    let mut all = Vec::new(alloc);
    let mut numbers = Vec::new(alloc);
    for group in groups.into_vec() {
        let looked = Looked::new(alloc, texts, raw, &group.observation)?;
        join(&mut all, &mut numbers, AlikeRuns { group, looked })?;
    }
    Ok(all)
}

// These runs join those before, which have these numbers.
fn join(all: &mut Vec<AlikeRuns>, numbers: &mut Vec<u64>, runs: AlikeRuns) -> Result<(), AllocError>
    requires fits { runs_in all.old.items + runs.group.runs < 2 ^ 64 }
    requires numbers { numbers.old.items ≡ map number_in all.old.items }
    ensures joined { OnOk result (Joins runs all.old.items all.new.items) }
    ensures numbers { OnOk result (numbers.new.items ≡ map number_in all.new.items) }
{
    let number = runs.number();
    for i in 0..all.len() {
        if is_alike_at(all, numbers, i, number, &runs) {
            all[i].group.runs += runs.group.runs;
            return Ok(());
        }
    }
    let next = next_place(all, runs.unmet_place());
    all.insert(next, runs)?;
    numbers.insert(next, number)?;
    Ok(())
}

// Whether these runs, which have this number, and those at this place are alike. Only those with the same number are
// compared.
#[tactic(auto, using(crate::proofs::Numbering::alike_numbers))]
fn is_alike_at(
    all: &[AlikeRuns],
    numbers: &[u64],
    place: usize,
    number: u64,
    runs: &AlikeRuns,
) -> bool
    requires inside { place < length all.now }
    requires numbers { numbers.now ≡ map number_in all.now }
    requires its { number ≡ number_in runs.now }
    ensures { (d : _) → IsTrue result ↔ AreAlike (slice_index_or all.now place d) runs.now }
{
    numbers[place] == number && all[place].is_alike(runs)
}

// How many stand before the next runs with this unmet expectation, or this lack of one.
fn next_place(all: &[AlikeRuns], unmet: Option<UnmetPlace>) -> usize
    ensures { IsNext unmet all.now result }
{
    let mut count = all.len();
    while count > 0 {
        if all[count - 1].unmet_place() == unmet {
            return count;
        }
        count -= 1;
    }
    all.len()
}
