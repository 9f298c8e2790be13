ghost use Rattle.std.specs.Prelude.{◌≡◌, ℕ, OnOk, length};

use command_texts::{push_number, push_place, push_reply, push_word};
use posix_terms::PackedRow;
use run_views::push_asked;
use std::alloc::{AllocError, Global};
use std::marker::Model;
use std::mem::replace;

/// Which rows of a run were shown: each is, once its call has a reply. Without memory for them rows
/// are left out. Contracts see how many it looked at.
#[derive(Drop)]
pub(crate) struct Follower {
    // how many rows were looked at
    seen: usize,
    // those among them that have no answer yet, in their order
    waiting: Vec<usize>,
    // by thread, how many rows have a reply
    replies: Vec<u64>,
}

impl Model for Follower {
    ghost Value = { ℕ };

    ghost view = { λ f. f.seen };
}

impl Follower {
    /// A follower of a run that begins. It takes no memory.
    pub(crate) fn new(alloc: Global) -> Follower
        ensures { result ≡ 0 }
    {
        Follower {
            seen: 0,
            waiting: Vec::new(alloc),
            replies: Vec::new(alloc),
        }
    }

    // The lines of the rows that have a reply since the last time.
    pub(crate) fn new_lines(
        &mut self,
        alloc: Global,
        rows: &[PackedRow],
    ) -> Result<Vec<u8>, AllocError>
        ensures { OnOk result (self.new ≡ length rows.now) }
    {
        let mut text = Vec::new(alloc);
        let waited = replace(&mut self.waiting, Vec::new(alloc));
        for row in &waited {
            self.show(&mut text, rows, *row)?;
        }
        for row in self.seen..rows.len() {
            self.show(&mut text, rows, row)?;
        }
        self.seen = rows.len();
        Ok(text)
    }

    // Adds the line of this row, if it has a reply; it waits, if it has no answer.
    fn show(
        &mut self,
        text: &mut Vec<u8>,
        rows: &[PackedRow],
        number: usize,
    ) -> Result<(), AllocError> {
        let Some(row) = rows.get(number) else {
            return Ok(());
        };
        let Some(reply) = row.reply()? else {
            if !row.is_answered() {
                self.waiting.push(number)?;
            }
            return Ok(());
        };
        let number = self.next_number(row.turn().thread)?;
        push_place(text, row.turn().thread as u64, number)?;
        push_number(text, row.turn().clock)?;
        push_word(text, " ")?;
        push_asked(text, row.call())?;
        push_word(text, " = ")?;
        push_reply(text, &reply)?;
        push_word(text, "\n")
    }

    // The number of the next row of this thread, among those that have a reply.
    fn next_number(&mut self, thread: usize) -> Result<u64, AllocError> {
        for _ in self.replies.len()..=thread {
            self.replies.push(0)?;
        }
        let Some(next) = self.replies.get_mut(thread) else {
            return Ok(0);
        };
        let number = *next;
        *next = number.saturating_add(1);
        Ok(number)
    }
}
