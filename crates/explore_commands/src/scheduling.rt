ghost use Rattle.std.specs.Prelude.{◌≡◌, IfOk};
ghost use Rattle.explore_commands.specs.Scheduled.{AreScheduled, bad_reach, no_list, too_many};

use crate::explore::ExploreOptions;
use command_texts::{Printed, fault};
use explore_texts::Schedule;
use posix_terms::{Bytes, Limits};
use std::alloc::{AllocError, Global};

// The delays of scripts.
#[derive(Drop)]
pub enum ToSchedule {
    // These, of which the first case is there.
    Delays(Schedule),
    // There are none: this is printed for the first fault.
    Fault(Printed),
}

// The delays that these texts are run with.
pub fn to_schedule(
    alloc: Global,
    options: ExploreOptions,
    texts: &[Bytes],
) -> Result<ToSchedule, AllocError>
    ensures { IfOk result (AreScheduled options texts.now) }
{
    if u64::from(options.reach) > Limits::WORK {
        return Ok(ToSchedule::Fault(bad_reach(alloc)?));
    }
    let schedule = Schedule::new(alloc, options.schedules, options.reach, texts)?;
    let Some(schedule) = schedule else {
        return Ok(ToSchedule::Fault(too_many(alloc)?));
    };
    if !schedule.is_there(options.first) {
        return Ok(ToSchedule::Fault(no_list(alloc, options.first)?));
    }
    Ok(ToSchedule::Delays(schedule))
}

fn bad_reach(alloc: Global) -> Result<Printed, AllocError>
    ensures { IfOk result (λ printed. printed ≡ bad_reach) }
{
    fault(alloc, 2, "the reach is 0 to 1000000\n")
}

fn too_many(alloc: Global) -> Result<Printed, AllocError>
    ensures { IfOk result (λ printed. printed ≡ too_many) }
{
    fault(
        alloc,
        2,
        "too many lists of delays: a smaller reach has fewer\n",
    )
}

fn no_list(alloc: Global, case: u64) -> Result<Printed, AllocError>
    ensures { IfOk result (λ printed. printed ≡ no_list case) }
{
    let line = format!(in alloc; "there is no list {case}\n")?;
    fault(alloc, 2, line.as_str())
}
