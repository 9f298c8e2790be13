// The text of a picture: the names of the lanes, which stay in sight, and beside them the runs.
ghost use Rattle.std.specs.Prelude.{◌≡◌, ◌++◌, OnOk};
ghost use Rattle.std.specs.List.{flat_map};
ghost use Rattle.run_pictures.specs.Boxes.{box_text};
ghost use Rattle.run_pictures.specs.Picture.{chart_text, cut_text, lane_text, names_text};
ghost use Rattle.run_pictures.specs.Picture.{picture_text, run_front, run_text, tick_text};

use crate::axis::Column;
use crate::boxes::push_box;
use crate::escaped::push_escaped;
use crate::fixed::{
    BOXES_FRONT, CHART_FRONT, CHART_FRONT_END, CHART_HEIGHT, CUT_END, CUT_FRONT, GROUP_END,
    LANE_END, LANE_FRONT, LANE_NAME, LANES_FRONT, LANES_FRONT_END, PICTURE_END, PICTURE_FRONT,
    PICTURE_FRONT_END, RUN_END, RUN_FRONT, RUN_NAME, RUN_NAME_END, TICK_CLOCK, TICK_END,
    TICK_FRONT, TICK_LINE,
};
use crate::layout::{CallBox, LaidRun, Lane, Layout};
use command_texts::{push_number, push_word};
use std::alloc::{AllocError, Global};

/// Adds a picture.
#[tactic(auto, unfolding(crate::specs::Picture::picture_text))]
pub(crate) fn push_picture(
    alloc: Global,
    text: &mut Vec<u8>,
    differs: Option<(usize, usize)>,
    layout: &Layout<'_>,
) -> Result<(), AllocError>
    ensures { OnOk result (text.new.items ≡ text.old.items ++ picture_text differs layout.now) }
{
    push_word(text, PICTURE_FRONT)?;
    push_number(text, layout.height)?;
    push_word(text, PICTURE_FRONT_END)?;
    push_names(text, &layout.runs)?;
    push_chart(text, layout)?;
    push_runs(alloc, text, differs, &layout.ticks, &layout.runs)?;
    push_word(text, PICTURE_END)
}

// Adds the names of all lanes.
fn push_names(text: &mut Vec<u8>, runs: &[LaidRun<'_>]) -> Result<(), AllocError>
    ensures { OnOk result (text.new.items ≡ text.old.items ++ flat_map names_text runs.now) }
{
    for i in 0..runs.len() {
        push_run_names(text, &runs[i])?;
    }
    Ok(())
}

#[tactic(auto, unfolding(crate::specs::Picture::names_text))]
fn push_run_names(text: &mut Vec<u8>, run: &LaidRun<'_>) -> Result<(), AllocError>
    ensures { OnOk result (text.new.items ≡ text.old.items ++ names_text run.now) }
{
    push_word(text, LANES_FRONT)?;
    push_number(text, run.top)?;
    push_word(text, LANES_FRONT_END)?;
    push_lanes(text, &run.lanes)?;
    push_word(text, GROUP_END)
}

fn push_lanes(text: &mut Vec<u8>, lanes: &[Lane]) -> Result<(), AllocError>
    ensures { OnOk result (text.new.items ≡ text.old.items ++ flat_map lane_text lanes.now) }
{
    for lane in lanes {
        push_lane(text, *lane)?;
    }
    Ok(())
}

#[tactic(auto, unfolding(crate::specs::Picture::lane_text))]
fn push_lane(text: &mut Vec<u8>, lane: Lane) -> Result<(), AllocError>
    ensures { OnOk result (text.new.items ≡ text.old.items ++ lane_text lane) }
{
    push_word(text, LANE_FRONT)?;
    push_number(text, lane.top)?;
    push_word(text, LANE_NAME)?;
    push_number(text, lane.thread as u64)?;
    push_word(text, LANE_END)
}

// Adds the front of what lies beside the names, with the stretches that are cut.
#[tactic(auto, unfolding(crate::specs::Picture::chart_text))]
fn push_chart(text: &mut Vec<u8>, layout: &Layout<'_>) -> Result<(), AllocError>
    ensures { OnOk result (text.new.items ≡ text.old.items ++ chart_text layout.now) }
{
    push_word(text, CHART_FRONT)?;
    push_number(text, layout.width)?;
    push_word(text, CHART_HEIGHT)?;
    push_number(text, layout.height)?;
    push_word(text, CHART_FRONT_END)?;
    push_cuts(text, &layout.cuts)
}

fn push_cuts(text: &mut Vec<u8>, cuts: &[u64]) -> Result<(), AllocError>
    ensures { OnOk result (text.new.items ≡ text.old.items ++ flat_map cut_text cuts.now) }
{
    for left in cuts {
        push_cut(text, *left)?;
    }
    Ok(())
}

#[tactic(auto, unfolding(crate::specs::Picture::cut_text))]
fn push_cut(text: &mut Vec<u8>, left: u64) -> Result<(), AllocError>
    ensures { OnOk result (text.new.items ≡ text.old.items ++ cut_text left) }
{
    push_word(text, CUT_FRONT)?;
    push_number(text, left)?;
    push_word(text, CUT_END)
}

// Adds the runs.
fn push_runs(
    alloc: Global,
    text: &mut Vec<u8>,
    differs: Option<(usize, usize)>,
    ticks: &[Column],
    runs: &[LaidRun<'_>],
) -> Result<(), AllocError>
    ensures { OnOk result (
        text.new.items ≡ text.old.items ++ flat_map (run_text differs ticks.now) runs.now) }
{
    for i in 0..runs.len() {
        push_run(alloc, text, differs, ticks, &runs[i])?;
    }
    Ok(())
}

// Adds a run: its name, the clocks, and the boxes.
#[tactic(auto, unfolding(crate::specs::Picture::run_text))]
fn push_run(
    alloc: Global,
    text: &mut Vec<u8>,
    differs: Option<(usize, usize)>,
    ticks: &[Column],
    run: &LaidRun<'_>,
) -> Result<(), AllocError>
    ensures { OnOk result (
        text.new.items ≡ text.old.items ++ run_text differs ticks.now run.now) }
{
    push_run_front(text, run)?;
    push_ticks(text, run.height, ticks)?;
    push_word(text, BOXES_FRONT)?;
    push_boxes(alloc, text, differs, &run.boxes)?;
    push_word(text, RUN_END)
}

// Adds where a run stands, and its name.
#[tactic(auto, unfolding(crate::specs::Picture::run_front))]
fn push_run_front(text: &mut Vec<u8>, run: &LaidRun<'_>) -> Result<(), AllocError>
    ensures { OnOk result (text.new.items ≡ text.old.items ++ run_front run.now) }
{
    push_word(text, RUN_FRONT)?;
    push_number(text, run.top)?;
    push_word(text, RUN_NAME)?;
    push_escaped(text, run.name)?;
    push_word(text, RUN_NAME_END)
}

// Adds clocks, each with its line through lanes of this height.
fn push_ticks(text: &mut Vec<u8>, height: u64, ticks: &[Column]) -> Result<(), AllocError>
    ensures { OnOk result (
        text.new.items ≡ text.old.items ++ flat_map (tick_text height) ticks.now) }
{
    for tick in ticks {
        push_tick(text, height, *tick)?;
    }
    Ok(())
}

#[tactic(auto, unfolding(crate::specs::Picture::tick_text))]
fn push_tick(text: &mut Vec<u8>, height: u64, tick: Column) -> Result<(), AllocError>
    ensures { OnOk result (text.new.items ≡ text.old.items ++ tick_text height tick) }
{
    push_word(text, TICK_FRONT)?;
    push_number(text, tick.left)?;
    push_word(text, TICK_LINE)?;
    push_number(text, height)?;
    push_word(text, TICK_CLOCK)?;
    push_number(text, tick.clock)?;
    push_word(text, TICK_END)
}

fn push_boxes(
    alloc: Global,
    text: &mut Vec<u8>,
    differs: Option<(usize, usize)>,
    boxes: &[CallBox<'_>],
) -> Result<(), AllocError>
    ensures { OnOk result (
        text.new.items ≡ text.old.items ++ flat_map (box_text differs) boxes.now) }
{
    for placed in boxes {
        push_box(alloc, text, differs, placed)?;
    }
    Ok(())
}
