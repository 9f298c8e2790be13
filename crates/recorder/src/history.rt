ghost use Rattle.std.specs.Prelude.{◌≡◌, ◌<◌, [], get_or, length, replicate};

use lock_machine::{Asked, Left};
use posix_terms::{PackedRow, Step};
use std::alloc::Global;
use std::marker::Model;

/// What happened in a run: a row for each granted turn, in the order of the turns, and the steps
/// that each thread asked, with `End` last once it has ended.
#[derive(Debug, Drop)]
pub struct RecordedHistory {
    rows: Vec<PackedRow>,
    // none where there was no machine
    asked: Option<Asked>,
    // how many threads there would have been then
    unstarted: usize,
}

impl Model for RecordedHistory {
    ghost use Rattle.recorder.specs.Recorded.{Past, steps_asked};

    ghost Value = { Past };

    ghost view = { λ h. record { rows = h.rows.items; asked = steps_asked h.unstarted h.asked } };
}

impl RecordedHistory {
    // What a machine leaves.
    pub(crate) fn new(left: Left) -> RecordedHistory
        ensures { result ≡ record { rows = left.rows.items; asked = left.asked } }
    {
        RecordedHistory {
            rows: left.rows,
            asked: Some(left.asked),
            unstarted: 0,
        }
    }

    // No rows, and so many threads that asked nothing.
    pub(crate) fn none(alloc: Global, threads: usize) -> RecordedHistory
        ensures { result ≡ record { rows = []; asked = replicate threads [] } }
    {
        RecordedHistory {
            rows: Vec::new(alloc),
            asked: None,
            unstarted: threads,
        }
    }

    /// The granted turns, in their order.
    pub fn rows(&self) -> &[PackedRow]
        ensures { result.now ≡ self.now.rows }
    {
        self.rows.as_slice()
    }

    /// How many threads there are.
    pub fn len(&self) -> usize
        ensures { result ≡ length self.now.asked }
    {
        match &self.asked {
            Some(asked) => asked.len(),
            None => self.unstarted,
        }
    }

    /// The steps that thread i asked, in order.
    pub fn steps(&self, i: usize) -> &[Step]
        requires { i < length self.now.asked }
        ensures { result.now ≡ get_or self.now.asked i [] }
    {
        match &self.asked {
            Some(asked) => asked.steps(i),
            None => &[],
        }
    }
}
