ghost use Rattle.std.specs.Prelude.{◌≡◌, ◌+◌, ◌<◌, ◌^◌, IfOk, None, OnErr};
ghost use Rattle.host_doors.specs.Giving.{CanCount, GivesOne};
ghost use Rattle.host_doors.specs.Opening.{HasDoor};
ghost use Rattle.log_guard.specs.Guarding.{
  Finds,
  Guarded,
  MayGive,
  OpensSo,
  Refuses,
  counted_with,
  law_of,
};

use crate::finder::LogFinder;
use host_doors::{DoorStop, Opened, Outside};
use posix_terms::{Call, Errno, Outcome, Request};
use std::marker::Model;

/// An outside in which the log of the run cannot be opened: that is `EBUSY`. All else is given by the
/// outside within. Contracts see that one, who finds the log, and how often it was to be opened.
///
/// The log is looked for before each opening. Where a name comes to lead to it between that and the
/// opening, because another program links it there, it is opened.
#[derive(Drop)]
pub struct GuardedDoors<O, F> {
    within: O,
    finder: F,
    refused: u64,
}

impl<O, F> Model for GuardedDoors<O, F> {
    ghost Value = { Guarded O F };

    ghost view = { λ d. record { within = d.within; finder = d.finder; refused = d.refused } };
}

impl<O, F> GuardedDoors<O, F> {
    /// No opening of the log was asked for yet.
    pub fn new(within: O, finder: F) -> GuardedDoors<O, F>
        ensures { result ≡ record { within = within; finder = finder; refused = 0 } }
    {
        GuardedDoors {
            within,
            finder,
            refused: 0,
        }
    }

    // Refuses an opening of the log.
    fn refuse<D>(&mut self) -> Opened<D>
        requires { self.old.refused + 1 < 2 ^ 64 }
        ensures refuses { Refuses self.old result.outcome self.new }
        ensures no_door { result.door ≡ None }
    {
        self.refused += 1;
        Opened {
            outcome: Outcome::Fail(Errno::EBUSY),
            door: None,
        }
    }
}

impl<O, F: LogFinder> GuardedDoors<O, F> {
    // Whether the call opens the log.
    fn opens_log(&self, call: &Call) -> bool
        ensures { Finds F.may_answer self.now.finder call.now result }
    {
        match call {
            Call::HostOpen { path, .. } => self.finder.is_log(path.as_slice()),
            _ => false,
        }
    }
}

impl<O: Outside, F: LogFinder> Outside for GuardedDoors<O, F> {
    type Door = O::Door;

    ghost given = { counted_with O.given };

    ghost failures = { counted_with O.failures };

    ghost gives = { MayGive (law_of O.given O.failures O.gives) F.may_answer };

    #[tactic(auto, unfolding(posix_terms::specs::Outcomes::fits), using(crate::proofs::Counted::passed))]
    fn open(
        &mut self,
        thread: usize,
        number: u64,
        request: &Request,
    ) -> Result<Opened<O::Door>, DoorStop>
        requires count { CanCount (counted_with O.given self.old)
            (counted_with O.failures self.old) }
        ensures gives { IfOk result (λ o. GivesOne (counted_with O.given)
            (counted_with O.failures) (MayGive (law_of O.given O.failures O.gives) F.may_answer)
            self.old number request.now o.outcome self.new) }
        ensures same { OnErr result (self.new ≡ self.old) }
        ensures opens { OpensSo (law_of O.given O.failures O.gives) F.may_answer self.old number
            request.now result self.new }
        ensures door { IfOk result (λ o. HasDoor o.outcome o.door) }
    {
        if self.opens_log(&request.call) {
            return Ok(self.refuse());
        }
        self.within.open(thread, number, request)
    }

    fn read(
        &mut self,
        thread: usize,
        number: u64,
        request: &Request,
        door: &mut O::Door,
        waits: bool,
    ) -> Result<Outcome, DoorStop> {
        self.within.read(thread, number, request, door, waits)
    }

    fn write(
        &mut self,
        thread: usize,
        number: u64,
        request: &Request,
        door: &mut O::Door,
        waits: bool,
    ) -> Result<Outcome, DoorStop> {
        self.within.write(thread, number, request, door, waits)
    }

    fn seek(
        &mut self,
        thread: usize,
        number: u64,
        request: &Request,
        door: &mut O::Door,
    ) -> Result<Outcome, DoorStop> {
        self.within.seek(thread, number, request, door)
    }

    fn listen(
        &mut self,
        thread: usize,
        number: u64,
        request: &Request,
    ) -> Result<Opened<O::Door>, DoorStop> {
        self.within.listen(thread, number, request)
    }

    fn connect(
        &mut self,
        thread: usize,
        number: u64,
        request: &Request,
    ) -> Result<Opened<O::Door>, DoorStop> {
        self.within.connect(thread, number, request)
    }

    fn accept(
        &mut self,
        thread: usize,
        number: u64,
        request: &Request,
        door: &mut O::Door,
        waits: bool,
    ) -> Result<Opened<O::Door>, DoorStop> {
        self.within.accept(thread, number, request, door, waits)
    }

    fn shutdown(
        &mut self,
        thread: usize,
        number: u64,
        request: &Request,
        door: &mut O::Door,
    ) -> Result<Outcome, DoorStop> {
        self.within.shutdown(thread, number, request, door)
    }

    fn close(
        &mut self,
        thread: usize,
        number: u64,
        request: &Request,
        door: O::Door,
    ) -> Result<Outcome, DoorStop> {
        self.within.close(thread, number, request, door)
    }
}
