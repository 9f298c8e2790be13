ghost use Rattle.std.specs.Prelude.{◌≡◌};
ghost use Rattle.detio_c.specs.Faults.{fault_of};

use c_words::LibraryFault;
use machine::Refused;

/// A refusal of the machine.
pub fn fault_of(refused: Refused) -> LibraryFault
    ensures { result ≡ fault_of refused }
{
    match refused {
        Refused::Stopped(_) => LibraryFault::Stopped,
        Refused::WrongPhase => LibraryFault::WrongPhase,
        Refused::ClockFull => LibraryFault::ClockFull,
        Refused::Memory => LibraryFault::NoMemory,
        Refused::Sink => LibraryFault::LogFull,
    }
}
