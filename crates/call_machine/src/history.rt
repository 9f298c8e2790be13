ghost use Rattle.std.specs.Prelude.{◌≡◌};
ghost use Rattle.posix_terms.specs.declared.transcript.HistoryRow.{HistoryRow};
ghost use Rattle.call_machine.specs.History.{Past};

use lock_machine::Asked;
use posix_terms::PackedRow;
use std::marker::Model;

/// What happened in a run: a row for each granted turn, in the order of the turns, and the steps that
/// each thread asked, with `End` last once it has ended.
#[derive(Debug, Drop)]
pub struct History {
    rows: Vec<PackedRow>,
    asked: Asked,
}

impl Model for History {
    ghost Value = { Past };

    ghost view = { λ h. record { rows = h.rows.items; asked = h.asked } };
}

impl History {
    /// The history with these rows and, for each thread, these steps. It takes no memory.
    pub fn new(rows: Vec<PackedRow>, asked: Asked) -> History
        ensures { result ≡ record { rows = rows.items; asked = asked } }
    {
        History { rows, asked }
    }

    /// The granted turns, in their order.
    pub fn rows(&self) -> &[PackedRow]
        ensures { result.now ≡ self.now.rows }
    {
        self.rows.as_slice()
    }

    /// The steps that each thread asked, by thread.
    pub fn asked(&self) -> &Asked
        ensures { result.now ≡ self.now.asked }
    {
        &self.asked
    }
}
