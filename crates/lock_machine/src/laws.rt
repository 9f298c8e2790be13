ghost use Rattle.lock_machine.specs.Phases.{PhasesShown};
ghost use Rattle.lock_machine.specs.Requests.{AskByTheirCall, AskLittle, AskTheirKind};
ghost use Rattle.lock_machine.specs.Shows.{ClocksShown};
ghost use Rattle.lock_machine.specs.Starting.{ShowsAtStart};

use call_turns::first_store;
use sequential_object::decided_so;

/// What calls ask outside. None asks for more than a record of its outcome can hold: at most 32,767 bytes to read or
/// write, and else a number of at most 65,535 (`little`). The request is known of the call alone (`calls`), and so is
/// its kind (`kinds`). The body does nothing: the contract is the law.
pub fn requests_asked()
    ensures little { AskLittle }
    ensures calls { AskByTheirCall }
    ensures kinds { AskTheirKind }
{
    decided_so();
}

/// What a machine shows of a state of the lock machine. At its start it shows the
/// start, whatever will be asked and come (`start`). The clocks by
/// which it finds whose turn it is are those of the state (`clocks`), and each
/// thread is in the phase that it has there, by name, with the call
/// and the object (`phases`). It does nothing: the contract is the law.
pub fn machines_show()
    ensures start { ShowsAtStart }
    ensures clocks { ClocksShown }
    ensures phases { PhasesShown }
{
    first_store();
}
