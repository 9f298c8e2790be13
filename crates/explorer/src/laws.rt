ghost use Rattle.explorer.specs.Laws.{ChancesAreWorks, LinesHaveMoved, ListsAreWorks, OnlyTooLong};
ghost use Rattle.explorer.specs.Laws.{ThreadsMakeCalls, VariedIsScript, VariedMakesCalls};

/// The law of varied texts, with delays of at most 1,000,000 units: that of a script is too long,
/// or the script before with works put in before its calls (`script`). Each line stands where it
/// has moved, and a jump leads to the line to which it led before (`places`). So its lines have the
/// same calls, in the same order (`calls`).
pub fn varied_is_script()
    ensures script { VariedIsScript }
    ensures places { LinesHaveMoved }
    ensures calls { VariedMakesCalls }
{}

/// The law of the varied texts of threads: where they are scripts, each makes the calls of the
/// script before, in its order (`calls`), and where they are not, one is too long (`room`).
pub fn threads_make_calls()
    ensures calls { ThreadsMakeCalls }
    ensures room { OnlyTooLong }
{}

/// The law of delays by chance: where their reach is at most 1,000,000, so are they.
pub fn chances_are_works()
    ensures { ChancesAreWorks }
{}

/// The same law of lists of delays.
pub fn lists_are_works()
    ensures { ListsAreWorks }
{}
