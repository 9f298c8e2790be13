ghost use Rattle.std.specs.Prelude.{◌≡◌, ◌+◌, ◌<◌, ◌^◌, ◌++◌, [], IfOk, OnOk, Some};
ghost use Rattle.std.specs.Prelude.{if◌then◌else◌, is_some};
ghost use Rattle.std.specs.Option.{option_to_list};
ghost use Rattle.fault_injection.specs.Places.{is_of, places_from, places_in};

use crate::objects::Objects;
use posix_terms::{ObjectKind, PackedRow};
use std::alloc::{AllocError, Global};

/// Where cases are made: at the last outcome that a call of a run took.
#[derive(Clone, Copy, Debug, PartialEq, Eq)]
pub struct Place {
    /// The thread that made the call.
    pub thread: usize,
    /// The number of the outcome among those of the thread, from 0.
    pub number: usize,
    /// What a read or a write went by; None of any other call.
    pub object: Option<ObjectKind>,
}

/// The places of a run of so many threads, by thread and number. The history has all its turns in
/// their order. Of a call that was asked again only the last outcome has a place: that with which
/// it was answered, or where it was not, the last that it took. An outcome that no call took has
/// none.
pub fn places_in(
    alloc: Global,
    threads: usize,
    history: &[PackedRow],
) -> Result<Vec<Place>, AllocError>
    ensures { IfOk result (λ places. places.items ≡ places_in threads history.now) }
{
    let mut places = Vec::new(alloc);
    for thread in 0..threads {
        push_of_thread(&mut places, thread, history)?;
    }
    Ok(places)
}

// Adds the places of a thread. It walks the history once.
fn push_of_thread(
    places: &mut Vec<Place>,
    thread: usize,
    history: &[PackedRow],
) -> Result<(), AllocError>
    ensures { OnOk result (
        places.new.items ≡ places.old.items ++ places_from thread 0 [] history.now) }
{
    let mut objects = Objects::new(*places.allocator());
    let mut last = None;
    let mut number = 0usize;
    for row in history {
        let object = objects.of_call(row.call());
        objects.pass(row)?;
        if !is_of(row, thread) {
            continue;
        }
        last = last_with(
            last,
            row,
            Place {
                thread,
                number,
                object,
            },
        );
        number = outcomes_with(number, row);
        if !row.has_reply() {
            continue;
        }
        push_some(places, last)?;
        last = None;
    }
    push_some(places, last)
}

fn is_of(row: &PackedRow, thread: usize) -> bool
    ensures { result ≡ is_of thread row.now }
{
    row.turn().thread == thread
}

// The last place of a call with one more turn, whose outcome, if one came, has this place.
fn last_with(last: Option<Place>, row: &PackedRow, place: Place) -> Option<Place>
    ensures { result ≡ (if is_some row.now.outcome then Some place else last) }
{
    match row.outcome() {
        Some(_) => Some(place),
        None => last,
    }
}

// How many outcomes of the thread have come after this turn, if so many had before it.
fn outcomes_with(outcomes: usize, row: &PackedRow) -> usize
    requires { outcomes + 1 < 2 ^ 64 }
    ensures { result ≡ (if is_some row.now.outcome then outcomes + 1 else outcomes) }
{
    if row.outcome().is_some() {
        outcomes + 1
    } else {
        outcomes
    }
}

// Adds this place, if there is one.
fn push_some(places: &mut Vec<Place>, last: Option<Place>) -> Result<(), AllocError>
    ensures { OnOk result (places.new.items ≡ places.old.items ++ option_to_list last) }
{
    if let Some(place) = last {
        places.push(place)?;
    }
    Ok(())
}
