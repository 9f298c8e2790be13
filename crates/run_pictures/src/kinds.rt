// How a call came to its answer, which the colours show.
ghost use Rattle.std.specs.Prelude.{◌≡◌, ◌++◌, OnOk};
ghost use Rattle.run_pictures.specs.Kinds.{class_text, is_marked, kind_of_row, word_of_kind};

use answered_calls::AnsweredCall;
use command_texts::push_word;
use posix_terms::Reply;
use std::alloc::AllocError;

/// How a call came to its answer.
#[derive(Clone, Copy, Debug)]
pub(crate) enum RowKind {
    /// In memory.
    Memory,
    /// By an outcome from outside.
    Outside,
    /// It failed, wherever that came from.
    Failure,
}

impl RowKind {
    /// Its word, which is a class in the page and a category in a trace.
    pub fn word(self) -> &'static str
        ensures { result.now ≡ word_of_kind self }
    {
        match self {
            RowKind::Memory => "memory",
            RowKind::Outside => "outside",
            RowKind::Failure => "failure",
        }
    }
}

pub(crate) fn kind_of_row(call: &AnsweredCall<'_>) -> RowKind
    ensures { result ≡ kind_of_row call.now }
{
    match (&call.row.reply, call.outcome) {
        (Reply::Fail(_), _) => RowKind::Failure,
        (_, Some(_)) => RowKind::Outside,
        (_, None) => RowKind::Memory,
    }
}

/// Adds the classes of what is drawn of a call: its kind, and that it is the first that differs.
#[tactic(auto, unfolding(crate::specs::Kinds::class_text))]
pub(crate) fn push_class(
    text: &mut Vec<u8>,
    differs: Option<(usize, usize)>,
    call: &AnsweredCall<'_>,
) -> Result<(), AllocError>
    ensures { OnOk result (text.new.items ≡ text.old.items ++ class_text differs call.now) }
{
    push_word(text, kind_of_row(call).word())?;
    if is_marked(differs, call) {
        push_word(text, " differs")
    } else {
        Ok(())
    }
}

/// Whether a call is the one of this place.
pub(crate) fn is_marked(differs: Option<(usize, usize)>, call: &AnsweredCall<'_>) -> bool
    ensures { result ≡ is_marked differs call.now }
{
    match differs {
        Some((thread, number)) => thread == call.thread && number == call.number,
        None => false,
    }
}
