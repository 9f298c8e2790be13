ghost use Rattle.std.specs.Prelude.{◌≡◌, IfOk};
ghost use Rattle.explore_texts.specs.Looked.{IsLooked, IsUnmetIn, compared_in, judgement_in};
ghost use Rattle.explore_texts.specs.Looked.{names_for};

use crate::judgement::Judgement;
use crate::waits::are_unexpected;
use answered_calls::blocked_lines;
use command_inputs::{UnmetLine, first_unmet_line};
use comparator::renamed;
use explorer::Observation;
use posix_terms::{Bytes, Transcripts};
use std::alloc::{AllocError, Global};

/// What is looked at in a run besides what its threads saw.
#[derive(Debug, Drop)]
pub struct Looked {
    /// The line of the first reply that is not as expected, if there is one.
    pub unmet: Option<UnmetLine>,
    /// What the run came to.
    pub judgement: Judgement,
    /// What the threads saw, with their descriptors renamed; nothing where that is compared as it is.
    pub renamed: Option<Transcripts>,
}

impl Looked {
    /// What is looked at in a run of these texts in which this was seen. With `raw` the numbers of
    /// descriptors stay as they are. An error means out of memory.
    pub fn new(
        alloc: Global,
        texts: &[Bytes],
        raw: bool,
        observation: &Observation,
    ) -> Result<Looked, AllocError>
        ensures { IfOk result (IsLooked raw texts.now observation.now) }
    {
        let unmet = first_unmet_line(alloc, texts, observation.seen.threads())?;
        let judgement = judgement_in(alloc, texts, observation, &unmet)?;
        Ok(Looked {
            unmet,
            judgement,
            renamed: names_for(alloc, raw, &observation.seen)?,
        })
    }

    // What is compared of the run in which this was seen.
    pub(crate) fn compared<'a>(&'a self, observation: &'a Observation) -> &'a Transcripts
        ensures { result.now ≡ compared_in self.now observation.now }
    {
        match &self.renamed {
            Some(renamed) => renamed,
            None => &observation.seen,
        }
    }
}

// What the run came to.
fn judgement_in(
    alloc: Global,
    texts: &[Bytes],
    observation: &Observation,
    unmet: &Option<UnmetLine>,
) -> Result<Judgement, AllocError>
    ensures { IfOk result (λ judgement.
        judgement ≡ judgement_in texts.now observation.now unmet.now) }
{
    let waits = blocked_lines(
        alloc,
        texts,
        &observation.seen,
        observation.blocked.as_slice(),
    )?;
    let blocked = are_unexpected(alloc, texts, &waits)?;
    Ok(Judgement::of(unmet.is_some(), blocked, observation.stop))
}

// What the threads saw, with their descriptors renamed, unless it is compared as it is.
fn names_for(
    alloc: Global,
    raw: bool,
    seen: &Transcripts,
) -> Result<Option<Transcripts>, AllocError>
    ensures { IfOk result (λ names. names ≡ names_for raw seen.now) }
{
    if raw {
        return Ok(None);
    }
    Ok(Some(renamed(alloc, seen)?))
}
