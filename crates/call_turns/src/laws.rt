ghost use Rattle.call_turns.specs.Errands.{LocksNext, TakesLocked};
ghost use Rattle.call_turns.specs.Store.{LocksAsStep, Stands, first_stored};
ghost use Rattle.sequential_object.specs.Numbers.{first_world};

use descriptor_table::table_follows_step;
use sequential_object::calls_outside;

/// Which objects calls lock, and whose doors they take along. The number that `perform_or_lock` returns is that of the
/// object whose lock the call takes (`numbers`). A call that frees the table before it goes outside takes along
/// the door of just that object (`doors`); one that opens a door locks the object that is born next, so its number
/// waits for the new door (`next`). It does nothing: the contract is the law.
pub fn locks_and_doors()
    ensures numbers { LocksAsStep }
    ensures doors { TakesLocked }
    ensures next { LocksNext }
{
    table_follows_step();
    calls_outside();
}

/// A store that was just made stands for the first world: nothing is open, and there is only the root. It does
/// nothing: the contract is the law.
pub fn first_store()
    ensures { Stands first_stored first_world }
{
    table_follows_step();
}
