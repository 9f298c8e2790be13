ghost use Rattle.std.specs.Prelude.{◌≡◌, ◌++◌, IfOk, OnOk};
ghost use Rattle.run_pictures.specs.Page.{IsPage, differs_place, differs_text, front_text};
ghost use Rattle.run_pictures.specs.Page.{has_row, link_or_none, link_text, links_text};
ghost use Rattle.run_pictures.specs.Page.{no_row_text, page_text};

use crate::drawn::{DrawnCall, DrawnRun};
use crate::escaped::push_escaped;
use crate::fixed::{
    DIFFERS_END, DIFFERS_ROW, DIFFERS_THREAD, LEGEND, LINK_END, LINK_FRONT, LINK_NAME, NO_ROW_END,
    NO_ROW_FRONT, PAGE_END, PAGE_FRONT, PAGE_HEADING_END, PAGE_STYLE,
};
use crate::kinds::is_marked;
use crate::layout::{Layout, lay_out};
use crate::picture::push_picture;
use crate::tables::{push_row_name, push_tables};
use command_texts::{push_number, push_word};
use std::alloc::{AllocError, Global};

/// The page of one run or of two. Of two that differ, `differs` is the first row that does, by its
/// thread and its number among the rows of its thread: it is marked in both.
pub fn page(
    alloc: Global,
    title: &[u8],
    runs: &[DrawnRun<'_>],
    differs: Option<(usize, usize)>,
) -> Result<Vec<u8>, AllocError>
    ensures { IfOk result (λ page. IsPage title.now runs.now differs page.items) }
{
    let layout = lay_out(alloc, runs)?;
    page_of(alloc, title, runs, differs, &layout)
}

#[tactic(auto, unfolding(crate::specs::Page::page_text))]
fn page_of(
    alloc: Global,
    title: &[u8],
    runs: &[DrawnRun<'_>],
    differs: Option<(usize, usize)>,
    layout: &Layout<'_>,
) -> Result<Vec<u8>, AllocError>
    ensures { IfOk result (λ page.
        page.items ≡ page_text title.now runs.now differs layout.now) }
{
    let mut text = Vec::new(alloc);
    push_front(&mut text, title)?;
    push_differs(&mut text, differs, runs)?;
    push_word(&mut text, LEGEND)?;
    push_picture(alloc, &mut text, differs, layout)?;
    push_tables(alloc, &mut text, differs, runs)?;
    push_word(&mut text, PAGE_END)?;
    Ok(text)
}

// Adds the head of a page, and its heading.
#[tactic(auto, unfolding(crate::specs::Page::front_text))]
fn push_front(text: &mut Vec<u8>, title: &[u8]) -> Result<(), AllocError>
    ensures { OnOk result (text.new.items ≡ text.old.items ++ front_text title.now) }
{
    push_word(text, PAGE_FRONT)?;
    push_escaped(text, title)?;
    push_word(text, PAGE_STYLE)?;
    push_escaped(text, title)?;
    push_word(text, PAGE_HEADING_END)
}

// Adds which row is the first that differs, if one does, with a link to it in the table of each run.
#[tactic(auto, unfolding(crate::specs::Page::differs_text))]
fn push_differs(
    text: &mut Vec<u8>,
    differs: Option<(usize, usize)>,
    runs: &[DrawnRun<'_>],
) -> Result<(), AllocError>
    ensures { OnOk result (text.new.items ≡ text.old.items ++ differs_text differs runs.now) }
{
    match differs {
        Some((thread, number)) => {
            push_differs_place(text, thread, number)?;
            push_links(text, (thread, number), runs)?;
            push_word(text, DIFFERS_END)
        }
        None => Ok(()),
    }
}

#[tactic(auto, unfolding(crate::specs::Page::differs_place))]
fn push_differs_place(text: &mut Vec<u8>, thread: usize, number: usize) -> Result<(), AllocError>
    ensures { OnOk result (text.new.items ≡ text.old.items ++ differs_place thread number) }
{
    push_word(text, DIFFERS_ROW)?;
    push_number(text, number as u64)?;
    push_word(text, DIFFERS_THREAD)?;
    push_number(text, thread as u64)
}

fn push_links(
    text: &mut Vec<u8>,
    place: (usize, usize),
    runs: &[DrawnRun<'_>],
) -> Result<(), AllocError>
    ensures { OnOk result (text.new.items ≡ text.old.items ++ links_text place 0 runs.now) }
{
    for (number, run) in runs.iter().enumerate() {
        push_link_or_none(text, place, number, run)?;
    }
    Ok(())
}

// Adds a link to this row in the table of a run, which has this number, or that it has none.
fn push_link_or_none(
    text: &mut Vec<u8>,
    place: (usize, usize),
    number: usize,
    run: &DrawnRun<'_>,
) -> Result<(), AllocError>
    ensures { OnOk result (
        text.new.items ≡ text.old.items ++ link_or_none place number run.now) }
{
    if has_row(place, &run.calls) {
        push_link(text, place, number, run.name)
    } else {
        push_no_row(text, run.name)
    }
}

// Whether this row is one of these calls.
fn has_row(place: (usize, usize), calls: &[DrawnCall<'_>]) -> bool
    ensures { result ≡ has_row place calls.now }
{
    calls
        .iter()
        .any(|drawn| is_marked(Some(place), &drawn.call))
}

#[tactic(auto, unfolding(crate::specs::Page::link_text))]
fn push_link(
    text: &mut Vec<u8>,
    place: (usize, usize),
    run: usize,
    name: &[u8],
) -> Result<(), AllocError>
    ensures { OnOk result (text.new.items ≡ text.old.items ++ link_text place run name.now) }
{
    push_word(text, LINK_FRONT)?;
    push_row_name(text, run, place.0, place.1)?;
    push_word(text, LINK_NAME)?;
    push_escaped(text, name)?;
    push_word(text, LINK_END)
}

#[tactic(auto, unfolding(crate::specs::Page::no_row_text))]
fn push_no_row(text: &mut Vec<u8>, name: &[u8]) -> Result<(), AllocError>
    ensures { OnOk result (text.new.items ≡ text.old.items ++ no_row_text name.now) }
{
    push_word(text, NO_ROW_FRONT)?;
    push_escaped(text, name)?;
    push_word(text, NO_ROW_END)
}
