ghost use Rattle.std.specs.Prelude.{◌≡◌, ◌↔◌, ◌∷◌, [], IsTrue, MatchOption, Some, is_some};
ghost use Rattle.worker_notes.specs.Agrees.{Agree, AgreesWith, brought_by, brought_in, replies_in};
ghost use Rattle.worker_notes.specs.Agrees.{replies_noted, steps_noted};

use crate::own::{Brought, Noted, Own};
use crate::requests::{is_request_of, kind_asked};
use crate::same::{same_outcome, same_step};
use lock_machine::Asked;
use posix_terms::{PackedRow, Reply, Step};

/// Whether what the workers noted is what a history says of their threads:
/// the steps that each asked, the replies of its rows, and what
/// these brought from outside, each with the request of its call.
#[tactic(auto, using(crate::proofs::Agreeing::agree_more, crate::proofs::Agreeing::agree_count))]
pub fn agree(rows: &[PackedRow], asked: &Asked, own: &[Own]) -> bool
    ensures { IsTrue result ↔ Agree rows.now asked.now own.now }
{
    if asked.len() != own.len() {
        return false;
    }
    for i in 0..own.len() {
        if !agrees(i, rows, asked.steps(i), &own[i]) {
            return false;
        }
    }
    true
}

// Whether the notes of this thread agree with its rows and the steps that it asked.
fn agrees(thread: usize, rows: &[PackedRow], asked: &[Step], notes: &Own) -> bool
    ensures { IsTrue result ↔ AgreesWith thread rows.now asked.now notes.now }
{
    are_steps(notes.steps.as_slice(), asked)
        && (are_replies(thread, rows, notes.steps.as_slice())
            && are_brought(thread, rows, notes.outcomes.as_slice()))
}

// Whether the steps that were noted are these.
fn are_steps(notes: &[Noted], asked: &[Step]) -> bool
    ensures { IsTrue result ↔ (steps_noted notes.now ≡ asked.now) }
{
    let mut rest = asked;
    for note in notes {
        let Some((step, more)) = rest.split_first() else {
            return false;
        };
        if !same_step(&note.step, step) {
            return false;
        }
        rest = more;
    }
    rest.is_empty()
}

// Whether the replies that were noted are those of the rows of this thread.
fn are_replies(thread: usize, rows: &[PackedRow], notes: &[Noted]) -> bool
    ensures { IsTrue result ↔ (replies_noted notes.now ≡ replies_in thread rows.now) }
{
    let mut rest = notes;
    for row in rows {
        if row.turn().thread == thread && row.has_reply() {
            let Some((noted, more)) = next_reply(rest) else {
                return false;
            };
            if !row.is_reply(noted) {
                return false;
            }
            rest = more;
        }
    }
    next_reply(rest).is_none()
}

// The first reply of the notes, with the notes after it.
fn next_reply(notes: &[Noted]) -> Option<(&Reply, &[Noted])>
    ensures { MatchOption result (replies_noted notes.now ≡ [])
        (λ p. replies_noted notes.now ≡ p.0.now ∷ replies_noted p.1.now) }
{
    let mut rest = notes;
    while let Some((note, more)) = rest.split_first() {
        if let Some(reply) = &note.reply {
            return Some((reply, more));
        }
        rest = more;
    }
    None
}

// Whether what was noted from outside is what the rows of this thread brought.
fn are_brought(thread: usize, rows: &[PackedRow], notes: &[Brought]) -> bool
    ensures { IsTrue result ↔ (notes.now ≡ brought_in thread rows.now) }
{
    let mut rest = notes;
    for row in rows {
        if row.turn().thread == thread && brings(row) {
            let Some((noted, more)) = rest.split_first() else {
                return false;
            };
            if !is_brought_by(noted, row) {
                return false;
            }
            rest = more;
        }
    }
    rest.is_empty()
}

// Whether a row brought something from outside.
fn brings(row: &PackedRow) -> bool
    ensures { result ≡ is_some (brought_by row.now) }
{
    kind_asked(row.call()).is_some() && row.outcome().is_some()
}

// Whether a row brought this.
fn is_brought_by(noted: &Brought, row: &PackedRow) -> bool
    ensures { IsTrue result ↔ (brought_by row.now ≡ Some noted.now) }
{
    match row.outcome() {
        Some(outcome) => {
            is_request_of(&noted.request, row.turn(), row.call())
                && same_outcome(&noted.outcome, outcome)
        }
        None => false,
    }
}
