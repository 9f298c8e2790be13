//! The lock machine, for whoever proves something of runs: threads that take locks at their turns,
//! as definitions (`specs/`) and laws.
//!
//! A *run* is any list of events that the machine allows; the *plain run* is the one deterministic
//! schedule. Each function here is a law: it does nothing, takes no memory and asks for nothing,
//! and whoever calls it in a body knows from there on what its contract says. `one_event` says
//! what one event changes, and `arising_states` what holds of each state that a run leads to. By
//! `legal_history` each answer is the one that the calls before it lead to, and by `prefix_law`
//! what the threads saw at any moment is a beginning of what they see in the plain run. `real_runs`
//! says the same of the real calls.
//!
//! ```rust
//! ghost use Rattle.lock_model.specs.Events.{EventLaws};
//! ghost use Rattle.lock_model.specs.Laws.{ArisesByEvent};
//!
//! // What keeps true what is true of each machine, for the proofs of its events.
//! fn laws()
//!     ensures events { EventLaws }
//!     ensures arises { ArisesByEvent }
//! {
//!     lock_model::one_event();
//!     // Known now: an event that is not allowed changes nothing, and none changes another thread
//!     // than its own.
//!     lock_model::arising_states();
//!     // Known now: each event leads from a state that arises to one that arises.
//! }
//! ```
#![tactic(auto)]

ghost use Rattle.std.specs.Prelude.{◌≡◌, ◌∷◌, []};
ghost use Rattle.lock_model.specs.Came.{CameGrows, CameIsRows, CameOutside, FitsAlike};
ghost use Rattle.lock_model.specs.Came.{OutsideStays, OverUnderCame, PlainArises, PlainCount};
ghost use Rattle.lock_model.specs.Came.{PlainLeads, RepliesAreRows, RoomOutside, SameUnderCame};
ghost use Rattle.lock_model.specs.CallTable.Plan.{No_object, Object};
ghost use Rattle.lock_model.specs.CallTable.Way.{Door, Inside, Keeps_table};
ghost use Rattle.lock_model.specs.Events.{EventLaws};
ghost use Rattle.lock_model.specs.Example.{Words, alone, blocked_call, one_call, replied_at};
ghost use Rattle.lock_model.specs.Example.{three_calls, turn, turns, two};
ghost use Rattle.lock_model.specs.Laws.{ArisesAtStart, ArisesByEvent, ArisesByRun, DatedOfArisen};
ghost use Rattle.lock_model.specs.Laws.{EachEventLowers, EndedOrTurn, EndsHere, EndsNext};
ghost use Rattle.lock_model.specs.Laws.{HolderHasTurn, LegalLaw, LegalOfArisen, LocksOfArisen};
ghost use Rattle.lock_model.specs.Laws.{OneEventMore, OneTurn, OverLaw, OwnFinite, PlainIsRun};
ghost use Rattle.lock_model.specs.Laws.{PlansOfArisen, PrefixLaw, PrefixLawOfCame};
ghost use Rattle.lock_model.specs.Laws.{PrefixLawOfFollowed, PrefixLawOfOwn, RisingLaw};
ghost use Rattle.lock_model.specs.Laws.{RisingOfArisen, RowsOfArisen, RunFollows, SomeEnd};
ghost use Rattle.lock_model.specs.Laws.{SomeTurn, StepsOfArisen, StuckLaw, UniqueEnd};
ghost use Rattle.lock_model.specs.RealLaws.{RealEnd, RealLegal, RealLegalOfArisen, RealPrefix};
ghost use Rattle.lock_model.specs.RealLaws.{RealRising};
ghost use Rattle.lock_model.specs.Schedule.{IsOver, plain_run};
ghost use Rattle.lock_model.specs.Skipping.{SkipLaw};
ghost use Rattle.lock_model.specs.Times.{TimesOfArisen};
ghost use Rattle.lock_model.specs.Transcripts.{transcript};

use sequential_object::calls_outside;

/// The prefix law. Whatever the order of events, at every moment the rows of all threads together are the beginning
/// of the plain run's rows, where an outcome or an answer that is not there yet agrees with any, and an answered row
/// is the very row. So are each thread's rows, and the steps that it asked, its outcomes, its answers and its
/// transcript are prefixes of those of the plain run. Where all threads have ended, the whole state is the plain
/// run's last.
///
/// `under_supply`: the plain run is that of the same programs and the same lists of outcomes, which
/// may be longer than what the run took. `under_came`: of the same programs and just the outcomes
/// that came, with their clocks or without. `under_own`: of the steps that were asked, as lists,
/// and the outcomes that came. `under_followed`: of any programs that the steps follow, and any
/// lists whose outcomes become those that came. `stuck`: a run that cannot go on, ended or not, has
/// come to where the plain run ends.
pub fn prefix_law()
    ensures under_supply { PrefixLaw }
    ensures under_came { PrefixLawOfCame }
    ensures under_own { PrefixLawOfOwn }
    ensures under_followed { PrefixLawOfFollowed }
    ensures stuck { StuckLaw }
{}

/// The turn order: one thread has the turn at most (`one`), and some thread has it unless all have ended (`some`,
/// `ended`); `turn_holder` names it (`holder`).
pub fn turn_order()
    ensures one { OneTurn }
    ensures holder { HolderHasTurn }
    ensures some { SomeTurn }
    ensures ended { EndedOrTurn }
{}

/// The plain run has one end at most, and one where its programs are finite, as lists of steps are. Then no run goes on
/// for ever: some number falls at each event that is allowed (`lowers`).
///
/// For a function that makes the plain run, event by event: `over`: where no event is next, none is allowed at all.
/// `here` and `next`: where the plain run ends, seen from a state in which it is over, and from before its next event.
/// `more`: the same, seen from the first state. `is_run`: the plain run is a run, so that the laws of runs hold of it.
pub fn plain_run_ends()
    ensures unique { UniqueEnd }
    ensures ends { SomeEnd }
    ensures own_finite { OwnFinite }
    ensures lowers { EachEventLowers }
    ensures over { OverLaw }
    ensures here { EndsHere }
    ensures next { EndsNext }
    ensures more { OneEventMore }
    ensures is_run { PlainIsRun }
{}

/// What one event does to the threads, for a function that makes runs event by
/// event: it changes no thread but its own, and that one as its
/// phase says; where it is not allowed it changes nothing.
pub fn one_event()
    ensures { EventLaws }
{}

/// Attempts that fail can be skipped: where each turn before a given one is for an attempt that
/// fails, they lead, one after another, to the state in which no thread that wants a lock comes
/// before that turn any more.
pub fn failing_attempts()
    ensures { SkipLaw }
{}

/// At every moment of every run the history is legal: each answer is the one that the calls before it, one granted
/// turn at a time, lead to, whatever outcomes the rows that lack theirs will get. And each granted turn comes before
/// all later ones.
pub fn legal_history()
    ensures legal { LegalLaw }
    ensures rising { RisingLaw }
{}

/// A state arises from a first one where it is the end of a run in which exactly the steps and
/// outcomes came that it has itself. The start arises; each event leads from a state that arises to
/// one that arises, whatever the setup supplies; so each run's state arises, and its threads follow
/// their programs. The history of a state that arises is legal, its turns rise, and the outcome of
/// a row has the clock of its turn (`dated`); that of a thread that is outside comes after those of
/// all that came for it (`times`). In it each lock is held by exactly the thread whose phase says so,
/// and a thread in a call has one row without an answer, that of its call. It was planned in the
/// world that it found, which stays as it is while the call keeps the table, and an outcome that
/// came answers what it asks (`plans`). The last step that such a thread asked is that call, and
/// that of a thread that works is not its end (`steps`).
pub fn arising_states()
    ensures at_start { ArisesAtStart }
    ensures by_event { ArisesByEvent }
    ensures by_run { ArisesByRun }
    ensures follows { RunFollows }
    ensures legal { LegalOfArisen }
    ensures rising { RisingOfArisen }
    ensures dated { DatedOfArisen }
    ensures times { TimesOfArisen }
    ensures locks { LocksOfArisen }
    ensures rows { RowsOfArisen }
    ensures plans { PlansOfArisen }
    ensures steps { StepsOfArisen }
{}

/// The same for the real calls, in the words of files and descriptors. Whatever the order of events, the sequential
/// object, given the calls in the order of the rows, gives each answer
/// that a thread got (`legal`; `arisen`: of any state
/// that arises), the turns rise (`rising`), and each thread sees a
/// beginning of what it sees in the plain run (`prefix`),
/// which comes to an end where the programs do (`ends`).
pub fn real_runs()
    ensures legal { RealLegal }
    ensures arisen { RealLegalOfArisen }
    ensures rising { RealRising }
    ensures prefix { RealPrefix }
    ensures ends { RealEnd }
{
    calls_outside();
}

/// Runs worked out by hand, from the rules: a table attempt costs 1; an object attempt costs 1, and 1 more where it
/// frees the table; going outside costs 100; and an answer costs 1 for each lock that it frees.
///
/// Two threads make one call each. With no lock but the table's they are granted at the clocks 1 and 3 (`unlocked`);
/// where each takes the lock of an object, at 1 and 4 (`locked`). Three calls that go outside are granted at 1, 105 and
/// 209, whether they free the table before (`outside`) or keep it (`keeping`). A call that is blocked at every turn is
/// granted at 1 and 5, and never replies; at a limit of 10 its third attempt for the object is not allowed
/// (`blocked`).
pub fn worked_runs()
    ensures unlocked { (x : Words) → turns (plain_run (one_call x No_object) 10 (two x)).rows
        ≡ turn 1 0 ∷ turn 3 1 ∷ [] }
    ensures unlocked_over { (x : Words)
        → IsOver (one_call x No_object) (plain_run (one_call x No_object) 10 (two x)) }
    ensures locked { (x : Words) → turns (plain_run (one_call x (Object 0 Inside)) 13 (two x)).rows
        ≡ turn 1 0 ∷ turn 4 1 ∷ [] }
    ensures locked_over { (x : Words)
        → IsOver (one_call x (Object 0 Inside))
        (plain_run (one_call x (Object 0 Inside)) 13 (two x)) }
    ensures outside { (x : Words) → transcript 0
        (plain_run (three_calls x (Object 0 Door)) 19 (alone x)).rows
        ≡ replied_at x (turn 1 0) ∷ replied_at x (turn 105 0) ∷ replied_at x (turn 209 0) ∷ [] }
    ensures keeping { (x : Words) → transcript 0
        (plain_run (three_calls x (Object 0 Keeps_table)) 19 (alone x)).rows
        ≡ replied_at x (turn 1 0) ∷ replied_at x (turn 105 0) ∷ replied_at x (turn 209 0) ∷ [] }
    ensures blocked { (x : Words) → turns (plain_run (blocked_call x) 10 (alone x)).rows
        ≡ turn 1 0 ∷ turn 5 0 ∷ [] }
    ensures blocked_silent { (x : Words)
        → transcript 0 (plain_run (blocked_call x) 10 (alone x)).rows ≡ [] }
    ensures blocked_over { (x : Words)
        → IsOver (blocked_call x) (plain_run (blocked_call x) 10 (alone x)) }
{}

/// The plain run and the outcomes that came in it. Each came with the clock of its call's turn, and
/// what has that clock or none fits where it does (`alike`). With just those that came in so many
/// events, with their clocks or without, it is the same run so far (`same`), and over where it was
/// over (`over`): so it can be made again from its own outcomes. What so many events make is a run
/// (`leads`), to a state that arises (`arises`), of as many threads (`count`), which only adds to
/// what came (`grows`). A thread that went outside is there still, or the next outcome that came
/// for it answers what it asked (`stays`); outside it has room for one (`room`). In a state that
/// arises, what came for a thread are the outcomes of its rows, in order (`rows`), and the replies
/// that it got are theirs too (`replies`). An outcome comes in the event of a thread that is
/// outside alone, and for it alone (`outside`).
pub fn outcomes_that_came()
    ensures alike { FitsAlike }
    ensures same { SameUnderCame }
    ensures over { OverUnderCame }
    ensures leads { PlainLeads }
    ensures arises { PlainArises }
    ensures count { PlainCount }
    ensures grows { CameGrows }
    ensures stays { OutsideStays }
    ensures room { RoomOutside }
    ensures rows { CameIsRows }
    ensures replies { RepliesAreRows }
    ensures outside { CameOutside }
{}
