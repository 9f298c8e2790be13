ghost use Rattle.std.specs.Prelude.{◌≡◌};
ghost use Rattle.posix_terms.specs.Ends.{is_first, peer_of};

/// Which end of its object an open file description is of.
#[derive(Clone, Copy, Debug, PartialEq, Eq)]
pub enum End {
    /// A file has one end alone.
    Only,
    /// The end of a pipe that is read from.
    Read,
    /// The end of a pipe that is written to.
    Write,
    /// A socket of a pair.
    Socket(Side),
    /// A door to the outside, which has one end too.
    Door(Door),
}

/// What leads outside.
#[derive(Clone, Copy, Debug, PartialEq, Eq)]
pub enum Door {
    /// A file of the host.
    HostFile,
    /// A listener at this port of 127.0.0.1.
    Listener(u16),
    /// A stream to a peer.
    Stream,
}

/// One of the two sockets of a pair.
#[derive(Clone, Copy, Debug, PartialEq, Eq)]
pub enum Side {
    Side0,
    Side1,
}

impl End {
    /// Whether this end counts first of its object's ends: it is the only one, the read end of a pipe or
    /// side 0 of a pair.
    pub fn is_first(self) -> bool
        ensures { result ≡ is_first self }
    {
        match self {
            End::Only | End::Read | End::Socket(Side::Side0) | End::Door(_) => true,
            End::Write | End::Socket(Side::Side1) => false,
        }
    }
}

impl Side {
    /// The socket at the other side.
    pub fn peer(self) -> Side
        ensures { result ≡ peer_of self }
    {
        match self {
            Side::Side0 => Side::Side1,
            Side::Side1 => Side::Side0,
        }
    }
}
