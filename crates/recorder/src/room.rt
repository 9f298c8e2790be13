ghost use Rattle.std.specs.Prelude.{◌≡◌, ◌≤◌, true, [], IfOk, IfErr, None, vec_capacity};
ghost use Rattle.input_log.specs.Grammar.{in_range};
ghost use Rattle.machine.specs.Starting.{header_for};
ghost use Rattle.posix_terms.specs.declared.limits.TheConstants.Limits as limit;
ghost use Rattle.recorder.specs.Starting.{IsRefusal, refusal};

use crate::ended::StartFault;
use machine::are_in_range;
use posix_terms::{Limits, Reply, Settings, Transcript};
use std::alloc::{AllocError, Global};
use std::sync::Condvar;
use worker_notes::Own;

// What is reserved before a run is started: for each worker a place for its notes, for its
// transcript, for its reply, and to wait.
#[derive(Drop)]
pub struct WorkerRoom {
    pub own: Vec<Own>,
    pub transcripts: Vec<Transcript>,
    pub told: Vec<Option<Reply>>,
    pub turns: Vec<Condvar>,
}

// WorkerRoom for so many workers, where they can be started.
#[tactic(auto, unfolding(input_log::specs::Grammar::in_range))]
pub fn room_for(
    alloc: Global,
    actors: usize,
    outsides: usize,
    settings: Settings,
) -> Result<WorkerRoom, StartFault>
    ensures started { IfOk result (λ room. refusal actors outsides settings ≡ None) }
    ensures some { IfOk result (λ room. 1 ≤ actors) }
    ensures within_limit { IfOk result (λ room. actors ≤ limit.THREADS) }
    ensures one_each { IfOk result (λ room. outsides ≡ actors) }
    ensures range { IfOk result (λ room. in_range (header_for settings actors) ≡ true) }
    ensures no_own { IfOk result (λ room. room.own.items ≡ []) }
    ensures own { IfOk result (λ room. actors ≤ vec_capacity room.own) }
    ensures no_transcripts { IfOk result (λ room. room.transcripts.items ≡ []) }
    ensures transcripts { IfOk result (λ room. actors ≤ vec_capacity room.transcripts) }
    ensures refused { IfErr result (λ why. IsRefusal why actors outsides settings) }
{
    if actors == 0 {
        return Err(StartFault::NoThreads);
    }
    if actors > Limits::THREADS {
        return Err(StartFault::TooManyThreads);
    }
    if outsides != actors || !are_in_range(settings) {
        return Err(StartFault::Settings);
    }
    match reserved(alloc, actors) {
        Ok(room) => Ok(room),
        Err(_) => Err(StartFault::Memory),
    }
}

fn reserved(alloc: Global, actors: usize) -> Result<WorkerRoom, AllocError>
    ensures no_own { IfOk result (λ room. room.own.items ≡ []) }
    ensures own { IfOk result (λ room. actors ≤ vec_capacity room.own) }
    ensures no_transcripts { IfOk result (λ room. room.transcripts.items ≡ []) }
    ensures transcripts { IfOk result (λ room. actors ≤ vec_capacity room.transcripts) }
{
    let mut turns = Vec::new(alloc);
    let mut told = Vec::new(alloc);
    for _ in 0..actors {
        turns.push(Condvar::new())?;
        told.push(None)?;
    }
    Ok(WorkerRoom {
        own: Vec::with_capacity(alloc, actors)?,
        transcripts: Vec::with_capacity(alloc, actors)?,
        told,
        turns,
    })
}
