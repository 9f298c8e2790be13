use posix_terms::{Carried, Moved, Reply};

/// How the act of a call on its object ended.
#[derive(Drop)]
pub enum ActEnd {
    /// With this reply.
    Reply(Reply),
    /// It cannot go on yet, and has moved so much.
    Waits(Moved),
}

/// How a turn of a call ended.
#[derive(Drop)]
pub enum TurnEnd {
    /// With this reply, which is the call's last word.
    Reply(Reply),
    /// It could not go on: it is made again, and carries this.
    Blocked(Carried),
}
