ghost use Rattle.std.specs.Prelude.{◌≡◌, length};

use crate::log::Log;
use crate::players::Player;
use lock_machine::LockMachine;
use posix_terms::Outcomes;

// Scripts that play the threads of a machine on the plain schedule, with the
// outcomes that come for each from outside, and the record of each
// that came.
#[derive(Drop)]
pub struct Driver {
    pub machine: LockMachine,
    pub players: Vec<Player>,
    pub outcomes: Vec<Outcomes>,
    pub log: Log,

    ghost seats: { length players.items ≡ length machine.threads },
}
