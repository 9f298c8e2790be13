ghost use Rattle.std.specs.Prelude.{◌↔◌, IsTrue};
ghost use Rattle.expectations.specs.Meeting.{Meets};

use crate::pattern::Pattern;
use posix_terms::Reply;

/// Which replies are wanted: those that match a pattern, or all others.
#[derive(Debug, PartialEq, Eq, Drop)]
pub enum Wanted {
    Match(Pattern),
    Not(Pattern),
}

impl Wanted {
    /// Whether the reply is one that is wanted.
    pub fn is_met_by(&self, reply: &Reply) -> bool
        ensures { IsTrue result ↔ Meets self.now reply.now }
    {
        match self {
            Wanted::Match(pattern) => pattern.matches(reply),
            Wanted::Not(pattern) => !pattern.matches(reply),
        }
    }
}
