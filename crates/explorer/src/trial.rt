ghost use Rattle.std.specs.Prelude.{◌≡◌, ◌-◌, [], IfErr, IfOk};
ghost use Rattle.std.specs.List.{range_with_len};
ghost use Rattle.explorer.specs.Cases.{CasesJoin, IsFaultOf};
ghost use Rattle.explorer.specs.Groups.{runs_of};
ghost use Rattle.explorer.specs.Runs.{IsFault, IsRun, Sees};
ghost use Rattle.explorer.specs.Subject.{subject};

use crate::delays::Delays;
use crate::fault::RunFault;
use crate::groups::Groups;
use crate::observation::Observation;
use crate::observing::{join_all, observe_cases};
use crate::progress::ReportsProgress;
use crate::read_trial::ReadTrial;
use crate::runs::run_copied;
use crate::workers::Workers;
use call_machine::{Plain, SpareStore};
use posix_terms::{Bytes, Outcomes, Settings};
use std::alloc::Global;
use std::ops::Range;
use std::thread::Threads;

/// Scripts to be run: as they are, or with changes.
#[derive(Clone, Copy, Debug)]
pub struct Trial<'a> {
    /// Their texts, by thread.
    pub texts: &'a [Bytes],
    /// What comes for each thread from outside, in every run.
    pub outcomes: &'a [Outcomes],
    pub settings: Settings,
}

impl Trial<'_> {
    /// The groups of the runs of these cases, one run for each, in order. The error is that of the
    /// run of one of them, as for [`run_texts`](crate::run_texts). `progress` is called after each
    /// batch of [`Workers::at_a_time`] runs.
    pub fn explored<T: Threads + Sync, D: Delays + Sync, P: ReportsProgress>(
        self,
        workers: &Workers<'_, T>,
        alloc: Global,
        delays: &D,
        cases: Range<u64>,
        progress: &mut P,
    ) -> Result<Groups, RunFault>
        ensures ok { IfOk result (
            CasesJoin (subject self.entry) (D.delays_of delays.now) []
            (range_with_len cases.start (cases.end - cases.start))) }
        ensures counted { IfOk result (λ groups. runs_of groups ≡ cases.end - cases.start) }
        ensures err { IfErr result (
            IsFaultOf (subject self.entry) (D.delays_of delays.now) cases.start cases.end) }
    {
        let read = ReadTrial::new(alloc, self);
        let mut groups = Groups::new(alloc);
        let mut spare = SpareStore::new();
        let mut case = cases.start;
        while case < cases.end {
            let count = (cases.end - case).min(workers.at_a_time() as u64);
            let seen = observe_cases(
                workers,
                alloc,
                &mut spare,
                &read,
                delays,
                case,
                count as usize,
            )?;
            join_all(&mut groups, case, seen)?;
            case += count;
            let all = cases.end - cases.start;
            progress.made(case - cases.start, all, groups.as_slice().len());
        }
        Ok(groups)
    }

    /// What is seen in the plain run of the scripts, as they are. The errors are those of
    /// [`run_texts`](crate::run_texts).
    pub fn observe(self, alloc: Global) -> Result<Observation, RunFault>
        ensures ok { IfOk result (Sees (subject self.entry)) }
        ensures err { IfErr result (IsFault (subject self.entry)) }
    {
        self.observe_kept(alloc, &mut SpareStore::new())
    }

    /// The same, over the store that an earlier run left in `spare`, where there is one; it leaves it
    /// there for the next.
    pub fn observe_kept(
        self,
        alloc: Global,
        spare: &mut SpareStore,
    ) -> Result<Observation, RunFault>
        ensures ok { IfOk result (Sees (subject self.entry)) }
        ensures err { IfErr result (IsFault (subject self.entry)) }
    {
        let plain = self.run_kept(alloc, spare)?;
        Ok(Observation::new(alloc, &plain)?)
    }

    /// The plain run of the scripts, as they are, with its log. The errors are those of
    /// [`run_texts`](crate::run_texts).
    pub fn run(self, alloc: Global) -> Result<Plain, RunFault>
        ensures ok { IfOk result (IsRun (subject self.entry)) }
        ensures err { IfErr result (IsFault (subject self.entry)) }
    {
        self.run_kept(alloc, &mut SpareStore::new())
    }

    /// The same, over the store that an earlier run left in `spare`, where there is one; it leaves it
    /// there for the next.
    pub fn run_kept(self, alloc: Global, spare: &mut SpareStore) -> Result<Plain, RunFault>
        ensures ok { IfOk result (IsRun (subject self.entry)) }
        ensures err { IfErr result (IsFault (subject self.entry)) }
    {
        run_copied(alloc, spare, self.texts, self.outcomes, self.settings)
    }
}
