ghost use Rattle.expectations.specs.Laws.{CallsHavePlaces, NamesLeadBack, NoneWhereMet, NotBoth};
ghost use Rattle.expectations.specs.Laws.{NumbersLeadBack, OneFirst, OneFirstBad, OneList};
ghost use Rattle.expectations.specs.Laws.{StandForCalls, TextsReadBack};

use thread_scripts::{accepted_exactly, script_stays};

/// The law of names: from the name of an error that error comes back (`errors`), and from the
/// number of a kind of objects that kind (`kinds`). So no error and no kind is left out.
pub fn names_lead_back()
    ensures errors { NamesLeadBack }
    ensures kinds { NumbersLeadBack }
{}

/// The law of expectations: where their text is a script, the line that has the place of one makes
/// a call, and was read from the line of the text that the expectation names.
pub fn expectations_stand_for_calls()
    ensures { StandForCalls }
{
    accepted_exactly();
}

/// The law of places: the line of a script that has the place of a call makes a call.
pub fn calls_have_places()
    ensures { CallsHavePlaces }
{
    script_stays();
}

/// The law of texts: what [`Wanted::text`](crate::Wanted::text) writes is read as the same.
pub fn texts_read_back()
    ensures { TextsReadBack }
{
    names_lead_back();
}

/// The law of readings: a text has one list of expectations at most (`list`), one first bad one at
/// most (`bad`), and not both (`apart`). So [`expectations_of`](crate::expectations_of) gives no
/// other.
pub fn one_reading()
    ensures list { OneList }
    ensures bad { OneFirstBad }
    ensures apart { NotBoth }
{}

/// The law of the first unmet expectation: there is none where all are met (`none`), and else one
/// at most (`one`). So [`first_unmet`](crate::first_unmet) gives no other.
pub fn one_first_unmet()
    ensures none { NoneWhereMet }
    ensures one { OneFirst }
{}
