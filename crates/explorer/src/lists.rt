ghost use Rattle.std.specs.Prelude.{◌≡◌, ◌+◌, ◌<◌, ◌≤◌, ◌^◌, [], IfOk, MatchOption, None, Some};
ghost use Rattle.std.specs.Prelude.{drop, length, slice_get, slice_index_or};
ghost use Rattle.explorer.specs.Lists.{Bounds, delay_in, delays_among, delays_in, list_of};
ghost use Rattle.explorer.specs.Lists.{lists_of, pairs_among, places_of};
ghost use Rattle.explorer.specs.ListCounts.{list_count, pair_count};

use crate::delay_list::{Delay, DelayList};
use crate::delays::Delays;
use crate::places::{CallPlace, places_of};
use posix_terms::Bytes;
use std::alloc::{AllocError, Global};
use std::marker::Model;

/// Delay bounding: the cases are all lists of at most one delay, or of at most two, at the lines of
/// calls. Contracts see the places, the reach, and whether there are lists of two.
#[derive(Debug, Drop)]
pub struct Lists {
    places: Vec<CallPlace>,
    reach: u64,
    two: bool,
    count: u64,
}

impl Model for Lists {
    ghost Value = { Bounds };

    ghost view = { λ l. record { places = l.places.items; reach = l.reach; two = l.two } };

    ghost invariant = { λ l.
        l.count
        ≡ length (lists_of (record { places = l.places.items; reach = l.reach; two = l.two })) };
}

impl Delays for Lists {
    ghost delays_of = { λ l case thread line. delay_in (list_of l case) thread line };

    /// The delay of the list of this case.
    fn delay(&self, case: u64, thread: usize, line: usize) -> Option<u64> {
        self.of_case(case).units_at(thread, line)
    }
}

impl Lists {
    /// The lists of at most one delay, or with `two` of at most two, at the lines of calls of these
    /// texts, each delay of 1 to `reach` units. Returns `None` exactly when their number does not
    /// fit in a `u64`; an error means out of memory.
    pub fn new(
        alloc: Global,
        texts: &[Bytes],
        reach: u32,
        two: bool,
    ) -> Result<Option<Lists>, AllocError>
        ensures { IfOk result (λ lists.
            MatchOption lists
            (2 ^ 64
            ≤ length (lists_of (
            record { places = places_of 0 texts.now; reach = reach; two = two })))
            (λ lists.
            lists ≡ record { places = places_of 0 texts.now; reach = reach; two = two })) }
    {
        let places = places_of(alloc, texts)?;
        let reach = u64::from(reach);
        let Some(count) = count_of(places.len() as u64, reach, two) else {
            return Ok(None);
        };
        Ok(Some(Lists {
            places,
            reach,
            two,
            count,
        }))
    }

    /// How many there are.
    pub fn count(&self) -> u64
        ensures { result ≡ length (lists_of self.now) }
    {
        self.count
    }

    /// The list of a case: the first is empty, then come those of one delay, by place and units,
    /// then those of two. After the last it is empty too.
    pub fn of_case(&self, case: u64) -> DelayList
        ensures { delays_in result ≡ list_of self.now case }
    {
        if case == 0 || self.count <= case {
            return DelayList::empty();
        }
        let ones = self.places.len() as u64 * self.reach;
        if case <= ones {
            return DelayList {
                first: delay_among(&self.places, self.reach, case - 1),
                second: None,
            };
        }
        pair_among(&self.places, self.reach, case - 1 - ones)
    }
}

// The delay with this number of those at places, if there are so many.
fn delay_among(places: &[CallPlace], reach: u64, at: u64) -> Option<Delay>
    ensures { result ≡ slice_get (delays_among reach places.now) at }
{
    if reach == 0 {
        return None;
    }
    match places.get((at / reach) as usize) {
        Some(place) => Some(Delay {
            place: *place,
            units: 1 + at % reach,
        }),
        None => None,
    }
}

// The list with this number of those of two delays at places.
fn pair_among(places: &[CallPlace], reach: u64, at: u64) -> DelayList
    requires { length (pairs_among reach places.now) < 2 ^ 64 }
    ensures { delays_in result ≡ slice_index_or (pairs_among reach places.now) at [] }
{
    let mut left = at;
    for i in 0..places.len() {
        let place = places[i];
        let rest = after(places, i);
        let others = rest.len() as u64 * reach;
        let here = reach * others;
        if left < here {
            return DelayList {
                first: Some(Delay {
                    place,
                    units: 1 + left / others,
                }),
                second: delay_among(rest, reach, left % others),
            };
        }
        left -= here;
    }
    DelayList::empty()
}

// The places after this one.
fn after(places: &[CallPlace], i: usize) -> &[CallPlace]
    requires { i < length places.now }
    ensures { result.now ≡ drop (i + 1) places.now }
{
    &places[i + 1..]
}

// How many lists there are at so many places, if a `u64` holds that.
fn count_of(places: u64, reach: u64, two: bool) -> Option<u64>
    ensures { MatchOption result
        (2 ^ 64 ≤ list_count places reach two)
        (λ count. count ≡ list_count places reach two) }
{
    let ones = places.checked_mul(reach)?;
    let pairs = if two { pair_count(places, reach)? } else { 0 };
    ones.checked_add(pairs)?.checked_add(1)
}

// How many lists of two delays there are at so many places, if a `u64` holds that.
fn pair_count(places: u64, reach: u64) -> Option<u64>
    ensures { MatchOption result
        (2 ^ 64 ≤ pair_count reach places)
        (λ count. count ≡ pair_count reach places) }
{
    let mut count: u64 = 0;
    for rest in 0..places {
        let others = rest.checked_mul(reach)?;
        count = count.checked_add(reach.checked_mul(others)?)?;
    }
    Some(count)
}
