// The text of a box.
ghost use Rattle.std.specs.Prelude.{◌≡◌, ◌++◌, OnOk};
ghost use Rattle.run_pictures.specs.Boxes.{answer_words, box_front, box_text, early_text};
ghost use Rattle.run_pictures.specs.Boxes.{line_text, outcome_mark, outcome_words, place_words};
ghost use Rattle.run_pictures.specs.Boxes.{shape_front, shape_text, title_text, turn_words};
ghost use Rattle.run_pictures.specs.Boxes.{wait_text};

use crate::drawn::CallClocks;
use crate::escaped::{push_asked_escaped, push_reply_escaped};
use crate::fixed::{
    BOX_FRONT, BOX_LEFT, BOX_LINE, BOX_LINE_END, BOX_LINE_LENGTH, BOX_TITLE, BOX_TOP, BOX_WAIT,
    BOX_WAITED, BOX_WIDTH, BOX_WORD, BOX_WORD_END, EARLY_END, EARLY_FRONT, EARLY_WIDTH, GROUP_END,
    MARK_END, MARK_FRONT, MARK_NUMBER,
};
use crate::kinds::push_class;
use crate::layout::CallBox;
use answered_calls::AnsweredCall;
use command_texts::{push_number, push_word};
use std::alloc::{AllocError, Global};

/// Adds a box: where it stands, what is read of its call, and its shape.
#[tactic(auto, unfolding(crate::specs::Boxes::box_text))]
pub(crate) fn push_box(
    alloc: Global,
    text: &mut Vec<u8>,
    differs: Option<(usize, usize)>,
    placed: &CallBox<'_>,
) -> Result<(), AllocError>
    ensures { OnOk result (text.new.items ≡ text.old.items ++ box_text differs placed.now) }
{
    push_box_front(text, differs, placed)?;
    push_title(alloc, text, &placed.call, placed.clocks)?;
    push_shape(text, placed)?;
    push_outcome_mark(text, placed)?;
    push_word(text, GROUP_END)
}

// Adds how the call of a box came to its answer, and where the box stands.
#[tactic(auto, unfolding(crate::specs::Boxes::box_front))]
fn push_box_front(
    text: &mut Vec<u8>,
    differs: Option<(usize, usize)>,
    placed: &CallBox<'_>,
) -> Result<(), AllocError>
    ensures { OnOk result (text.new.items ≡ text.old.items ++ box_front differs placed.now) }
{
    push_word(text, BOX_FRONT)?;
    push_class(text, differs, &placed.call)?;
    push_word(text, BOX_LEFT)?;
    push_number(text, placed.left)?;
    push_word(text, BOX_TOP)?;
    push_number(text, placed.top)?;
    push_word(text, BOX_TITLE)
}

// Adds what is read of a call where one points at its box.
#[tactic(auto, unfolding(crate::specs::Boxes::title_text))]
fn push_title(
    alloc: Global,
    text: &mut Vec<u8>,
    call: &AnsweredCall<'_>,
    clocks: CallClocks,
) -> Result<(), AllocError>
    ensures { OnOk result (
        text.new.items ≡ text.old.items ++ title_text call.now clocks) }
{
    push_asked_escaped(alloc, text, &call.row.call)?;
    push_word(text, " = ")?;
    push_reply_escaped(alloc, text, &call.row.reply)?;
    push_place_words(text, call)?;
    push_turn_words(text, call, clocks.asked)?;
    push_answer_words(text, clocks)?;
    push_outcome_words(text, call.outcome)
}

// Adds where the call stands.
#[tactic(auto, unfolding(crate::specs::Boxes::place_words))]
fn push_place_words(text: &mut Vec<u8>, call: &AnsweredCall<'_>) -> Result<(), AllocError>
    ensures { OnOk result (text.new.items ≡ text.old.items ++ place_words call.now) }
{
    push_word(text, "; thread ")?;
    push_number(text, call.thread as u64)?;
    push_word(text, ", row ")?;
    push_number(text, call.number as u64)?;
    push_word(text, ", line ")?;
    push_number(text, call.line as u64)
}

// Adds the way of the call, which was asked for at this clock, to its last turn.
#[tactic(auto, unfolding(crate::specs::Boxes::turn_words))]
fn push_turn_words(
    text: &mut Vec<u8>,
    call: &AnsweredCall<'_>,
    asked: u64,
) -> Result<(), AllocError>
    ensures { OnOk result (text.new.items ≡ text.old.items ++ turn_words call.now asked) }
{
    push_word(text, "; asked at ")?;
    push_number(text, asked)?;
    push_word(text, ", first turn ")?;
    push_number(text, call.granted)?;
    push_word(text, ", turn ")?;
    push_number(text, call.row.turn.clock)?;
    push_word(text, ", blocked at ")?;
    push_number(text, call.blocked as u64)?;
    push_word(text, " turns")
}

// Adds when the call had its locks, and when it was answered.
#[tactic(auto, unfolding(crate::specs::Boxes::answer_words))]
fn push_answer_words(text: &mut Vec<u8>, clocks: CallClocks) -> Result<(), AllocError>
    ensures { OnOk result (text.new.items ≡ text.old.items ++ answer_words clocks) }
{
    push_word(text, ", had its locks at ")?;
    push_number(text, clocks.locked)?;
    push_word(text, ", answered at ")?;
    push_number(text, clocks.answered)
}

// Adds which outcome came last for the call, if one did.
#[tactic(auto, unfolding(crate::specs::Boxes::outcome_words))]
fn push_outcome_words(text: &mut Vec<u8>, outcome: Option<usize>) -> Result<(), AllocError>
    ensures { OnOk result (text.new.items ≡ text.old.items ++ outcome_words outcome) }
{
    match outcome {
        Some(number) => {
            push_word(text, "; outcome ")?;
            push_number(text, number as u64)
        }
        None => Ok(()),
    }
}

// Adds what leads to a box, and the box with its word, hatched where its call waited.
#[tactic(auto, unfolding(crate::specs::Boxes::shape_text))]
fn push_shape(text: &mut Vec<u8>, placed: &CallBox<'_>) -> Result<(), AllocError>
    ensures { OnOk result (text.new.items ≡ text.old.items ++ shape_text placed.now) }
{
    push_line(text, placed)?;
    push_early(text, placed.early)?;
    push_shape_front(text, placed.width)?;
    push_wait(text, placed)?;
    push_word(text, placed.call.row.call.kind().word())?;
    push_word(text, BOX_WORD_END)
}

// Adds the line that leads to where the thread asked for the call.
#[tactic(auto, unfolding(crate::specs::Boxes::line_text))]
fn push_line(text: &mut Vec<u8>, placed: &CallBox<'_>) -> Result<(), AllocError>
    ensures { OnOk result (text.new.items ≡ text.old.items ++ line_text placed.now) }
{
    push_word(text, BOX_LINE)?;
    push_number(text, placed.early)?;
    push_word(text, BOX_LINE_LENGTH)?;
    push_number(text, placed.line)?;
    push_word(text, BOX_LINE_END)
}

// Adds the hatching before a box, so long, if there is any.
#[tactic(auto, unfolding(crate::specs::Boxes::early_text))]
fn push_early(text: &mut Vec<u8>, early: u64) -> Result<(), AllocError>
    ensures { OnOk result (text.new.items ≡ text.old.items ++ early_text early) }
{
    if early == 0 {
        return Ok(());
    }
    push_word(text, EARLY_FRONT)?;
    push_number(text, early)?;
    push_word(text, EARLY_WIDTH)?;
    push_number(text, early)?;
    push_word(text, EARLY_END)
}

// Adds how wide a box is.
#[tactic(auto, unfolding(crate::specs::Boxes::shape_front))]
fn push_shape_front(text: &mut Vec<u8>, width: u64) -> Result<(), AllocError>
    ensures { OnOk result (text.new.items ≡ text.old.items ++ shape_front width) }
{
    push_word(text, BOX_WIDTH)?;
    push_number(text, width)
}

// Adds the hatching in a box.
#[tactic(auto, unfolding(crate::specs::Boxes::wait_text))]
fn push_wait(text: &mut Vec<u8>, placed: &CallBox<'_>) -> Result<(), AllocError>
    ensures { OnOk result (text.new.items ≡ text.old.items ++ wait_text placed.now) }
{
    push_word(text, BOX_WAIT)?;
    push_number(text, placed.wait)?;
    push_word(text, BOX_WAITED)?;
    push_number(text, placed.waited)?;
    push_word(text, BOX_WORD)
}

// Adds the mark of the last outcome that came for a call, if one did, above the end of its box.
#[tactic(auto, unfolding(crate::specs::Boxes::outcome_mark))]
fn push_outcome_mark(text: &mut Vec<u8>, placed: &CallBox<'_>) -> Result<(), AllocError>
    ensures { OnOk result (
        text.new.items
        ≡ text.old.items ++ outcome_mark placed.now.width placed.now.call.outcome) }
{
    match placed.call.outcome {
        Some(number) => {
            push_word(text, MARK_FRONT)?;
            push_number(text, placed.width)?;
            push_word(text, MARK_NUMBER)?;
            push_number(text, number as u64)?;
            push_word(text, MARK_END)
        }
        None => Ok(()),
    }
}
