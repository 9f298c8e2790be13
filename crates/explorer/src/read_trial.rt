ghost use Rattle.std.specs.Prelude.{◌≡◌, IfErr, IfOk, IfSome, Ok};
ghost use Rattle.command_texts.specs.Reading.{scripts_from};
ghost use Rattle.explorer.specs.Cases.{with_delays};
ghost use Rattle.explorer.specs.Runs.{IsFault, IsRun, Sees};
ghost use Rattle.explorer.specs.Subject.{Subject, subject};
ghost use Rattle.explorer.specs.Varied.{varied_texts};

use crate::copies::outcomes_copied;
use crate::delays::Delays;
use crate::fault::RunFault;
use crate::observation::Observation;
use crate::read_script::ReadScript;
use crate::runs::{run_copied, run_texts_kept};
use crate::trial::Trial;
use crate::vary::varied_texts;
use call_machine::{Plain, SpareStore, plain_run_kept};
use posix_terms::{Bytes, Outcomes};
use std::alloc::{AllocError, Global};
use std::marker::Model;
use thread_scripts::Script;

/// A trial whose texts were read, for many runs: with other delays, or other outcomes. Contracts see what it runs.
#[derive(Drop)]
pub struct ReadTrial<'a> {
    trial: Trial<'a>,
    // There are none where one of the texts is not a script, or there was no memory.
    scripts: Option<Vec<ReadScript<'a>>>,
}

impl<'a> Model for ReadTrial<'a> {
    ghost Value = { Subject };

    ghost view = { λ r. subject r.trial };

    ghost invariant = { λ r. IfSome r.scripts (λ scripts. scripts.items ≡ r.trial.texts.now) };
}

impl<'a> ReadTrial<'a> {
    /// The trial with its texts read. Where one is not a script, or there is no memory, they are read again for each
    /// run, which reports that.
    pub fn new(alloc: Global, trial: Trial<'a>) -> ReadTrial<'a>
        ensures { result ≡ subject trial.entry }
    {
        let scripts = match read_all(alloc, trial.texts) {
            Ok(scripts) => scripts,
            Err(_) => None,
        };
        ReadTrial { trial, scripts }
    }

    /// The trial whose texts were read.
    pub fn trial(&self) -> Trial<'a>
        ensures { subject result ≡ self.now }
    {
        self.trial
    }

    /// The plain run of the scripts as they are, with these outcomes, over the store that an earlier run left in
    /// `spare`, where there is one; it leaves it there for the next. The errors are those of
    /// [`run_texts`](crate::run_texts).
    #[tactic(auto, using(crate::proofs::Grouping::not_run))]
    pub fn run_with(
        &self,
        alloc: Global,
        spare: &mut SpareStore,
        outcomes: Vec<Outcomes>,
    ) -> Result<Plain, RunFault>
        ensures ok { IfOk result (IsRun (record self.now { outcomes = outcomes.items })) }
        ensures err { IfErr result (IsFault (record self.now { outcomes = outcomes.items })) }
    {
        let Trial {
            texts,
            settings,
            ..
        } = self.trial;
        match self.copied(alloc)? {
            Some(scripts) => Ok(plain_run_kept(alloc, spare, scripts, outcomes, settings)?),
            None => run_texts_kept(alloc, spare, texts, outcomes, settings),
        }
    }

    // What is seen in the plain run of the scripts with the delays of this case, over the store that an earlier run
    // left in `spare`, where there is one; it leaves it there for the next.
    pub(crate) fn observe_case<D: Delays>(
        &self,
        alloc: Global,
        spare: &mut SpareStore,
        delays: &D,
        case: u64,
    ) -> Result<Observation, RunFault>
        ensures ok { IfOk result (Sees (with_delays (D.delays_of delays.now case) self.now)) }
        ensures err { IfErr result (
            IsFault (with_delays (D.delays_of delays.now case) self.now)) }
    {
        let plain = self.run_case(alloc, spare, delays, case)?;
        Ok(Observation::new(alloc, &plain)?)
    }

    // That plain run.
    #[tactic(auto, using(crate::proofs::Grouping::not_run))]
    fn run_case<D: Delays>(
        &self,
        alloc: Global,
        spare: &mut SpareStore,
        delays: &D,
        case: u64,
    ) -> Result<Plain, RunFault>
        ensures ok { IfOk result (IsRun (with_delays (D.delays_of delays.now case) self.now)) }
        ensures err { IfErr result (
            IsFault (with_delays (D.delays_of delays.now case) self.now)) }
    {
        let Trial {
            texts,
            outcomes,
            settings,
        } = self.trial;
        let Some(scripts) = self.scripts(alloc, delays, case)? else {
            let texts = varied_texts(alloc, delays, case, texts)?;
            return run_copied(alloc, spare, &texts, outcomes, settings);
        };
        let outcomes = outcomes_copied(alloc, outcomes)?;
        Ok(plain_run_kept(alloc, spare, scripts, outcomes, settings)?)
    }

    // Copies of the scripts, where they were read.
    fn copied(&self, alloc: Global) -> Result<Option<Vec<Script>>, AllocError>
        ensures { IfOk result (λ found. IfSome found (λ scripts.
            scripts_from 0 self.now.texts ≡ Ok scripts.items)) }
    {
        let Some(read) = &self.scripts else {
            return Ok(None);
        };
        let mut scripts = Vec::with_capacity(alloc, read.len())?;
        for one in read {
            scripts.push(one.copied(alloc)?)?;
        }
        Ok(Some(scripts))
    }

    // The scripts of the texts with the delays of this case, where they were read and such scripts are made of them.
    fn scripts<D: Delays>(
        &self,
        alloc: Global,
        delays: &D,
        case: u64,
    ) -> Result<Option<Vec<Script>>, AllocError>
        ensures { IfOk result (λ found. IfSome found (λ scripts.
            scripts_from 0 (varied_texts (D.delays_of delays.now case) 0 self.now.texts)
            ≡ Ok scripts.items)) }
    {
        let Some(read) = &self.scripts else {
            return Ok(None);
        };
        let mut scripts = Vec::with_capacity(alloc, read.len())?;
        for (thread, one) in read.iter().enumerate() {
            let Some(script) = one.delayed(alloc, delays, case, thread)? else {
                return Ok(None);
            };
            scripts.push(script)?;
        }
        Ok(Some(scripts))
    }
}

// The scripts of these texts, if each of them is one.
fn read_all<'a>(
    alloc: Global,
    texts: &'a [Bytes],
) -> Result<Option<Vec<ReadScript<'a>>>, AllocError>
    ensures { IfOk result (λ read. IfSome read (λ scripts. scripts.items ≡ texts.now)) }
{
    let mut scripts = Vec::with_capacity(alloc, texts.len())?;
    for text in texts {
        let Some(script) = ReadScript::of(alloc, text.as_slice())? else {
            return Ok(None);
        };
        scripts.push(script)?;
    }
    Ok(Some(scripts))
}
