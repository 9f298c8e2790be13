ghost use Rattle.thread_scripts.specs.Laws.{AcceptedExactly, BadLineIsFirst, JumpsLeadByName};
ghost use Rattle.thread_scripts.specs.Laws.{JumpsLeadToLabels, ReadScriptsKeepRules, RunsEnd};
ghost use Rattle.thread_scripts.specs.Laws.{ScriptStays, TooLongIsCounted, WordsNameCalls};
ghost use Rattle.thread_scripts.specs.ScriptPrograms.{NeverLacks, ScriptsEnd};

/// The law of texts that are too long: those with more than 1,000 lines, whatever these are.
pub fn too_long_is_counted()
    ensures { TooLongIsCounted }
{}

/// The law of bad lines: the one that is reported is the first one.
pub fn bad_line_is_the_first()
    ensures { BadLineIsFirst }
{}

/// The law of good lines: a text that is not too long is a script exactly where all its lines are
/// good, and the script's lines are what they say.
pub fn accepted_exactly()
    ensures { AcceptedExactly }
{}

/// The law of words: that of a call names it, so no call is left out, and no two have one word.
pub fn words_name_calls()
    ensures { WordsNameCalls }
{}

/// The law of jumps: in a script that was read, each leads to a label's line
/// (`labels`), which is that of the label that the jump's own line
/// names (`named`).
pub fn jumps_lead_to_labels()
    ensures labels { JumpsLeadToLabels }
    ensures named { JumpsLeadByName }
{}

/// The law of scripts that were read: they keep the rules for lines that are made in code.
pub fn read_scripts_keep_rules()
    ensures { ReadScriptsKeepRules }
{}

/// The law of runs: each step but the end leaves fewer lines to be executed.
pub fn runs_end()
    ensures { RunsEnd }
{}

/// The law of a script's state: its script never changes.
pub fn script_stays()
    ensures { ScriptStays }
{}

/// The law of scripts as programs, which give a next step after any steps and
/// replies. A script never lacks it: after its last line it goes
/// on ending (`next`). And each comes to its end: after so many steps
/// it gives nothing else, whatever the replies (`end`).
pub fn programs_of_scripts()
    ensures next { NeverLacks }
    ensures end { ScriptsEnd }
{
    runs_end();
}
