ghost use Rattle.std.specs.Prelude.{◌≡◌, ℕ, ◌+◌, ◌-◌, ◌*◌, ◌<◌, ◌≤◌, ◌/◌, ◌%◌, length, drop, min};
ghost use Rattle.std.specs.Prelude.{None, slice_index, slice_index_or, IfOk, IsSome};
ghost use Rattle.memory_files.specs.Pages.{byte_at, EmptyBehind, SameAt, SameBut, ZeroFrom};

use std::alloc::{AllocError, Global};
use std::marker::Model;

// Bytes of a page.
const PAGE_BYTES: usize = 512;

// Places of a file, and pages that its pool has at most.
const PLACES: usize = 128;

// The pages of one file. Each is named by one place, or is free. The room for all of them is taken
// when the file is made. A page joins the pool when a place wants one and none is free. Contracts
// see the places: each with the bytes of its page, or empty.
#[derive(Drop)]
pub(crate) struct Pages {
    pool: Vec<[u8; PAGE_BYTES]>,
    places: Vec<Option<u8>>,
    // The pages that no place names; the last is taken first.
    free: Vec<u8>,
}

impl Model for Pages {
    ghost use Rattle.std.specs.Prelude.{◌≤◌, ℕ, List, Option, map, vec_capacity};
    ghost use Rattle.memory_files.specs.Pages.{held, ArePages};

    ghost Value = { List (Option (List ℕ)) };

    ghost view = { λ p. map (held p.pool.items) p.places.items };

    ghost invariant = { λ p. ArePages p.pool.items p.places.items p.free.items
        × (128 ≤ vec_capacity p.pool) × (128 ≤ vec_capacity p.free) };
}

impl Pages {
    // All places empty, and no page yet. It takes the memory for all pages.
    pub(crate) fn new(alloc: Global) -> Result<Pages, AllocError>
        ensures empty { IfOk result (λ pages. EmptyBehind pages 0) }
    {
        let pool = Vec::with_capacity(alloc, PLACES)?;
        let places = vec![in alloc; None; PLACES]?;
        let free = Vec::with_capacity(alloc, PLACES)?;
        Ok(Pages { pool, places, free })
    }

    // Reads from a position into all of `into`.
    pub(crate) fn read(&self, start: usize, into: &mut [u8])
        requires within { start + length into.old ≤ 65536 }
        ensures { (k : ℕ) → k < length into.old
            → slice_index into.new k ≡ byte_at self.now (start + k) }
    {
        let mut done = 0;
        while done < into.len() {
            done += self.read_piece(start + done, &mut into[done..]);
        }
    }

    // Reads into the head of `into`, up to the end of the page at most, and tells how many bytes that were.
    fn read_piece(&self, start: usize, into: &mut [u8]) -> usize
        requires within { start < 65536 }
        ensures count { result ≡ min (length into.old) (512 - start % 512) }
        ensures bytes { (k : ℕ) → k < result
            → slice_index into.new k ≡ byte_at self.now (start + k) }
        ensures rest { drop result into.new ≡ drop result into.old }
    {
        let spot = Spot::of(start);
        let count = into.len().min(PAGE_BYTES - spot.offset);
        let piece = &mut into[..count];
        match self.places[spot.place] {
            Some(page) => {
                let bytes = &self.pool[page as usize];
                piece.copy_from_slice(&bytes[spot.offset..spot.offset + count]);
            }
            None => piece.fill(0),
        }
        count
    }

    // Writes all bytes at a position. A place where nothing is written takes no page.
    pub(crate) fn write(&mut self, start: usize, bytes: &[u8])
        requires within { start + length bytes.now ≤ 65536 }
        ensures before { (k : ℕ) → k < start → byte_at self.new k ≡ byte_at self.old k }
        ensures bytes { (k : ℕ) → k < length bytes.now
            → byte_at self.new (start + k) ≡ slice_index bytes.now k }
        ensures behind { (k : ℕ) → start + length bytes.now ≤ k
            → byte_at self.new k ≡ byte_at self.old k }
        ensures places_before { (place : ℕ) → 512 * place + 512 ≤ start
            → SameAt place self.old self.new }
        ensures places_behind { (place : ℕ) → start + length bytes.now ≤ 512 * place
            → SameAt place self.old self.new }
    {
        let mut done = 0;
        while done < bytes.len() {
            done += self.write_piece(start + done, &bytes[done..]);
        }
    }

    // Writes bytes from the head of `bytes`, up to the end of the page at most, and tells how many those were.
    fn write_piece(&mut self, start: usize, bytes: &[u8]) -> usize
        requires within { start < 65536 }
        ensures count { result ≡ min (length bytes.now) (512 - start % 512) }
        ensures before { (k : ℕ) → k < start → byte_at self.new k ≡ byte_at self.old k }
        ensures bytes { (k : ℕ) → k < result
            → byte_at self.new (start + k) ≡ slice_index bytes.now k }
        ensures behind { (k : ℕ) → start + result ≤ k → byte_at self.new k ≡ byte_at self.old k }
        ensures others { SameBut (start / 512) self.old self.new }
    {
        let spot = Spot::of(start);
        let count = bytes.len().min(PAGE_BYTES - spot.offset);
        self.take_page(spot.place);
        let page = self.places[spot.place].unwrap() as usize;
        self.pool[page][spot.offset..spot.offset + count].copy_from_slice(&bytes[..count]);
        count
    }

    // Has a place name a page of 0 bytes, where it is empty: a free one, which is cleared, or else
    // a new one.
    fn take_page(&mut self, place: usize)
        requires within { place < 128 }
        ensures named { IsSome (slice_index_or self.new place None) }
        ensures bytes { (k : ℕ) → byte_at self.new k ≡ byte_at self.old k }
        ensures others { SameBut place self.old self.new }
    {
        if self.places[place].is_some() {
            return;
        }
        match self.free.pop() {
            Some(page) => {
                self.pool[page as usize].fill(0);
                self.places[place] = Some(page);
            }
            None => {
                let page = self.pool.len() as u8;
                self.pool.push_reserved([0; PAGE_BYTES]);
                self.places[place] = Some(page);
            }
        }
    }

    // Has all bytes from `size` on read as 0, and gives back the pages that lie after it. All bytes after `end`
    // lie at empty places.
    pub(crate) fn cut(&mut self, size: usize, end: usize)
        requires shorter { size < end }
        requires within { end ≤ 65536 }
        requires empty { EmptyBehind self.old end }
        ensures kept { (k : ℕ) → k < size → byte_at self.new k ≡ byte_at self.old k }
        ensures zero { ZeroFrom self.new size }
        ensures empty { EmptyBehind self.new size }
    {
        self.wipe_tail(size);
        for place in size.div_ceil(PAGE_BYTES)..end.div_ceil(PAGE_BYTES) {
            self.give_back(place);
        }
    }

    // Has the bytes from a position to the end of its page read as 0.
    fn wipe_tail(&mut self, start: usize)
        requires within { start < 65536 }
        ensures before { (k : ℕ) → k < start → byte_at self.new k ≡ byte_at self.old k }
        ensures zero { (k : ℕ) → start ≤ k → k / 512 ≡ start / 512 → byte_at self.new k ≡ 0 }
        ensures others { SameBut (start / 512) self.old self.new }
    {
        let spot = Spot::of(start);
        if let Some(page) = self.places[spot.place] {
            self.pool[page as usize][spot.offset..].fill(0);
        }
    }

    // Empties a place, whose page is free then.
    fn give_back(&mut self, place: usize)
        requires within { place < 128 }
        ensures empty { slice_index_or self.new place None ≡ None }
        ensures others { SameBut place self.old self.new }
    {
        if let Some(page) = self.places[place].take() {
            self.free.push(page).unwrap();
        }
    }
}

// Where a position lies: in the page of which place, and how far into it.
#[derive(Clone, Copy, Drop)]
struct Spot {
    place: usize,
    offset: usize,
}

impl Spot {
    fn of(position: usize) -> Spot
        ensures place { result.place ≡ position / 512 }
        ensures offset { result.offset ≡ position % 512 }
    {
        Spot {
            place: position / PAGE_BYTES,
            offset: position % PAGE_BYTES,
        }
    }
}
