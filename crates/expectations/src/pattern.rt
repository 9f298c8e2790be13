ghost use Rattle.std.specs.Prelude.{◌≡◌, ◌↔◌, IsTrue};
ghost use Rattle.expectations.specs.Meeting.{IsOperand, Matches};

use posix_terms::{Bytes, Errno, ObjectKind, Reply};

/// Replies of a kind, with the operands that are given. An operand that is not given may be any.
#[derive(Debug, PartialEq, Eq, Drop)]
pub enum Pattern {
    Count(Option<u64>),
    Data(Option<Bytes>),
    Number(Option<i64>),
    Pair(Option<i64>, Option<i64>),
    Stat {
        kind: Option<ObjectKind>,
        number: Option<u64>,
        links: Option<u64>,
    },
    Done,
    Fail(Option<Errno>),
}

impl Pattern {
    /// Whether the reply is one of these.
    pub fn matches(&self, reply: &Reply) -> bool
        ensures { IsTrue result ↔ Matches self.now reply.now }
    {
        match (self, reply) {
            (Pattern::Count(wanted), Reply::Count(given)) => is_size(*wanted, *given),
            (Pattern::Data(wanted), Reply::Data(given)) => is_data(wanted, given),
            (Pattern::Number(wanted), Reply::Number(given)) => is_number(*wanted, *given),
            (Pattern::Pair(wanted_first, wanted_second), Reply::Pair(first, second)) => {
                is_number(*wanted_first, *first) && is_number(*wanted_second, *second)
            }
            (
                Pattern::Stat {
                    kind: wanted_kind,
                    number: wanted_number,
                    links: wanted_links,
                },
                Reply::Stat {
                    kind,
                    number,
                    links,
                },
            ) => {
                is_kind(*wanted_kind, *kind)
                    && is_size(*wanted_number, *number)
                    && is_size(*wanted_links, *links)
            }
            (Pattern::Done, Reply::Done) => true,
            (Pattern::Fail(wanted), Reply::Fail(given)) => is_error(*wanted, *given),
            _ => false,
        }
    }
}

// Whether an operand is the wanted one, by its type.

fn is_size(wanted: Option<u64>, given: u64) -> bool
    ensures { IsTrue result ↔ IsOperand wanted given }
{
    match wanted {
        Some(wanted) => given == wanted,
        None => true,
    }
}

fn is_number(wanted: Option<i64>, given: i64) -> bool
    ensures { IsTrue result ↔ IsOperand wanted given }
{
    match wanted {
        Some(wanted) => given == wanted,
        None => true,
    }
}

fn is_data(wanted: &Option<Bytes>, given: &Bytes) -> bool
    ensures { IsTrue result ↔ IsOperand wanted.now given.now }
{
    match wanted {
        Some(wanted) => given == wanted,
        None => true,
    }
}

fn is_kind(wanted: Option<ObjectKind>, given: ObjectKind) -> bool
    ensures { IsTrue result ↔ IsOperand wanted given }
{
    match wanted {
        Some(wanted) => given == wanted,
        None => true,
    }
}

fn is_error(wanted: Option<Errno>, given: Errno) -> bool
    ensures { IsTrue result ↔ IsOperand wanted given }
{
    match wanted {
        Some(wanted) => given == wanted,
        None => true,
    }
}
