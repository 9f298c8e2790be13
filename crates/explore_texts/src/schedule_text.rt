// What is printed of the delays of runs.
ghost use Rattle.std.specs.Prelude.{◌≡◌, ◌++◌, OnOk};
ghost use Rattle.std.specs.List.{flat_map};
ghost use Rattle.explorer.specs.Lists.{delays_in};
ghost use Rattle.explore_texts.specs.Schedules.{case_words, delay_text, front_text, left_text};

use crate::schedule::Schedule;
use command_texts::{push_number, push_word};
use explorer::{Delay, DelayList, Group};
use std::alloc::AllocError;

// Adds the first case of a group and how many runs it has.
#[tactic(auto, unfolding(crate::specs::Schedules::front_text))]
pub(crate) fn push_front(
    text: &mut Vec<u8>,
    schedule: &Schedule,
    group: &Group,
) -> Result<(), AllocError>
    ensures { OnOk result (
        text.new.items ≡ text.old.items ++ front_text schedule.now group.now) }
{
    push_case_words(text, schedule, group.first)?;
    push_word(text, "runs ")?;
    push_number(text, group.runs)?;
    push_word(text, " ")
}

// Adds a case.
fn push_case_words(text: &mut Vec<u8>, schedule: &Schedule, case: u64) -> Result<(), AllocError>
    ensures { OnOk result (text.new.items ≡ text.old.items ++ case_words schedule.now case) }
{
    match schedule {
        Schedule::Seeds(_) => {
            push_word(text, "seed ")?;
            push_number(text, case)?;
            push_word(text, " ")
        }
        Schedule::Lists(lists) => {
            push_word(text, "list ")?;
            push_number(text, case)?;
            push_word(text, " ")?;
            push_list(text, lists.of_case(case))
        }
    }
}

// Adds the delays of a list.
fn push_list(text: &mut Vec<u8>, list: DelayList) -> Result<(), AllocError>
    ensures { OnOk result (
        text.new.items ≡ text.old.items ++ flat_map delay_text (delays_in list)) }
{
    if let Some(delay) = list.first {
        push_delay(text, delay)?;
    }
    if let Some(delay) = list.second {
        push_delay(text, delay)?;
    }
    Ok(())
}

fn push_delay(text: &mut Vec<u8>, delay: Delay) -> Result<(), AllocError>
    ensures { OnOk result (text.new.items ≡ text.old.items ++ delay_text delay) }
{
    push_word(text, "delay ")?;
    push_number(text, delay.place.thread as u64)?;
    push_word(text, " ")?;
    push_number(text, delay.place.line as u64)?;
    push_word(text, " ")?;
    push_number(text, delay.units)?;
    push_word(text, " ")
}

// Adds how many lists were not run, where so many were.
pub(crate) fn push_left(
    text: &mut Vec<u8>,
    schedule: &Schedule,
    runs: u64,
) -> Result<(), AllocError>
    ensures { OnOk result (text.new.items ≡ text.old.items ++ left_text schedule.now runs) }
{
    let Schedule::Lists(lists) = schedule else {
        return Ok(());
    };
    push_word(text, " left out ")?;
    push_number(text, lists.count().saturating_sub(runs))
}
