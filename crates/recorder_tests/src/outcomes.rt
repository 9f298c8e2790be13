ghost use Rattle.std.specs.Prelude.{◌≡◌, ◌==◌, All, IfOk};

use host_doors::{Gate, ScriptDoors};
use posix_terms::{Bytes, Errno, Given, OutKind, Outcome, Outcomes};
use std::alloc::{AllocError, Global};

// An outcome from outside, in short.
#[derive(Clone, Copy)]
pub(crate) enum GivenOutcome {
    Ok(OutKind, u64, &'static [u8]),
    Fail(OutKind, Errno),
    // A success at this clock, with this value.
    At(OutKind, u64, u64),
}

fn given(alloc: Global, came: GivenOutcome) -> Result<Given, AllocError> {
    Ok(match came {
        GivenOutcome::Ok(kind, value, data) => Given {
            kind,
            clock: None,
            outcome: Outcome::Ok {
                value,
                bytes: Bytes::from_slice(alloc, data)?,
            },
        },
        GivenOutcome::Fail(kind, error) => Given {
            kind,
            clock: None,
            outcome: Outcome::Fail(error),
        },
        GivenOutcome::At(kind, clock, value) => Given {
            kind,
            clock: Some(clock),
            outcome: Outcome::Ok {
                value,
                bytes: Bytes::from_vec(Vec::new(alloc)),
            },
        },
    })
}

// Adds what came to a thread's outcomes.
pub(crate) fn add(
    list: &mut Vec<Given>,
    alloc: Global,
    came: &[GivenOutcome],
) -> Result<(), AllocError> {
    for one in came {
        list.push(given(alloc, *one)?)?;
    }
    Ok(())
}

fn outcomes_of(alloc: Global, came: Option<&&[GivenOutcome]>) -> Result<Outcomes, AllocError> {
    let mut list = Vec::new(alloc);
    if let Some(came) = came {
        add(&mut list, alloc, came)?;
    }
    Ok(Outcomes::from_vec(list))
}

// The outcomes of each thread: none where there is no list for it.
pub(crate) fn outcomes(
    alloc: Global,
    threads: usize,
    came: &[&[GivenOutcome]],
) -> Result<Vec<Outcomes>, AllocError> {
    let mut outcomes = Vec::new(alloc);
    for thread in 0..threads {
        outcomes.push(outcomes_of(alloc, came.get(thread))?)?;
    }
    Ok(outcomes)
}

// The gate of one thread's outside. A call for another thread does not pass: it gets ETIMEDOUT.
#[derive(Clone, Copy)]
pub(crate) struct OfThread {
    thread: usize,
}

impl Gate for OfThread {
    ghost may_answer = { λ gate thread _ answer _. answer ≡ (thread == gate.thread) };

    fn enter(&mut self, thread: usize, _number: u64) -> bool {
        thread == self.thread
    }
}

// Outsides that have these outcomes, each for its own thread.
pub(crate) fn doors(
    alloc: Global,
    outcomes: Vec<Outcomes>,
) -> Result<Vec<ScriptDoors<OfThread>>, AllocError>
    ensures { IfOk result (λ doors. All (λ d. (d.counts.given ≡ 0) × (d.counts.failures ≡ 0))
        doors.items) }
{
    let mut doors = Vec::new(alloc);
    for list in outcomes {
        let thread = doors.len();
        doors.push(ScriptDoors::new(list, OfThread { thread }))?;
    }
    Ok(doors)
}
