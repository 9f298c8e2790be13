// The options and the words of the subcommands: the one definition of each.
use clap::builder::ValueParser;
use clap::builder::ValueParser::{Names, Signed, Unsigned};

// An argument of a subcommand: its name, what its help says, and its rules.
#[derive(Clone, Copy)]
pub(crate) struct Argument {
    pub id: &'static str,
    pub help: &'static str,
    pub rules: &'static [Rule],
}

// What an argument is, and what it may be.
#[derive(Clone, Copy)]
pub(crate) enum Rule {
    // an option that is there or not
    Flag,
    // an option with a value, which its help calls so
    Named(&'static str),
    // an option with three values, which its help calls so
    Three(&'static [&'static str]),
    // no option but a word at its place, which its help calls so
    Place(&'static str),
    // any number of words
    Many,
    // an option that may be given again and again
    Repeated,
    Required,
    // one that is required where this other one is not given
    RequiredWithout(&'static str),
    // what it is where it is not given
    Default(&'static str),
    // what it is where it is given without a value
    Without(&'static str),
    // which values it takes, where not every text is one
    Takes(ValueParser<'static>),
    // one that goes with this other one alone
    Needs(&'static str),
    // one that does not go with this other one
    Excludes(&'static str),
}

pub(crate) const CHECK_EXPECTATIONS: Argument = Argument {
    id: "expect",
    help: "Also looks at what the lines #= of the scripts expect",
    rules: &[Rule::Flag, Rule::Excludes("json")],
};

pub(crate) const SCRIPTS_TO_CHECK: Argument = Argument {
    id: "script",
    help: "The scripts to check, 1 to 16",
    rules: &[Rule::Place("SCRIPT"), Rule::Many],
};

pub(crate) const SCRIPTS: Argument = Argument {
    id: "script",
    help: "The scripts to run, 1 to 16; - is standard input",
    rules: &[Rule::Place("SCRIPT"), Rule::Many],
};

pub(crate) const WHY: Argument = Argument {
    id: "why",
    help: "Adds after a fault why the host refused, or why a run stopped",
    rules: &[Rule::Flag],
};

pub(crate) const PATIENCE: Argument = Argument {
    id: "patience",
    help: "For how many turns a call may be blocked",
    rules: &[
        Rule::Named("N"),
        Rule::Takes(Signed(1, 1_000_000)),
        Rule::Default("1000"),
    ],
};

pub(crate) const DOOR_COST: Argument = Argument {
    id: "door-cost",
    help: "What a call that goes outside adds to the clock of its thread",
    rules: &[
        Rule::Named("N"),
        Rule::Takes(Signed(1, 1_000_000)),
        Rule::Default("100"),
    ],
};

pub(crate) const TURNS: Argument = Argument {
    id: "turns",
    help: "Prints the clock of each turn",
    rules: &[Rule::Flag],
};

pub(crate) const CALLS: Argument = Argument {
    id: "calls",
    help: "Prints each call with what it was asked, as read 3 9 = data 6869",
    rules: &[Rule::Flag],
};

pub(crate) const BY_TURN: Argument = Argument {
    id: "by-turn",
    help: "Prints the rows of all threads in the order of their turns",
    rules: &[Rule::Flag],
};

pub(crate) const LANES: Argument = Argument {
    id: "lanes",
    help: "Prints the rows in the order of their turns, with a column for each thread",
    rules: &[Rule::Flag],
};

pub(crate) const JSON: Argument = Argument {
    id: "json",
    help: "Prints an object of JSON on each line",
    rules: &[Rule::Flag],
};

pub(crate) const EXPECT: Argument = Argument {
    id: "expect",
    help: "Holds each reply to the lines #= below its call, as #= fail ENOENT",
    rules: &[Rule::Flag],
};

pub(crate) const SCHEDULE: Argument = Argument {
    id: "schedule",
    help: "Takes away lines of work alone: each other line and each thread stands",
    rules: &[Rule::Flag],
};

pub(crate) const SAME: Argument = Argument {
    id: "same",
    help: "The reply that is not as expected has to stay the same, not only its error",
    rules: &[Rule::Flag],
};

pub(crate) const SEEDS: Argument = Argument {
    id: "seeds",
    help: "The first seed, and the one after the last",
    rules: &[Rule::Named("A..B"), Rule::Default("0..1000")],
};

pub(crate) const DELAYS: Argument = Argument {
    id: "delays",
    help: "All lists of at most D delays in place of seeds, 1 or 2",
    rules: &[
        Rule::Named("D"),
        Rule::Takes(Signed(1, 2)),
        Rule::Without("1"),
        Rule::Excludes("seeds"),
    ],
};

pub(crate) const MOST: Argument = Argument {
    id: "most",
    help: "How many lists are run at most, with --delays",
    rules: &[
        Rule::Named("N"),
        Rule::Takes(Unsigned(0, u64::MAX)),
        Rule::Default("100000"),
        Rule::Needs("delays"),
        Rule::Excludes("only"),
        Rule::Excludes("seeds"),
    ],
};

pub(crate) const ONLY: Argument = Argument {
    id: "only",
    help: "This seed alone, or the list with this number",
    rules: &[
        Rule::Named("CASE"),
        Rule::Takes(Unsigned(0, u64::MAX)),
        Rule::Excludes("seeds"),
    ],
};

pub(crate) const REACH: Argument = Argument {
    id: "reach",
    help: "The longest delay of a call, in units of its thread's clock",
    rules: &[
        Rule::Named("N"),
        Rule::Takes(Signed(0, 1_000_000)),
        Rule::Default("20"),
    ],
};

pub(crate) const JOBS: Argument = Argument {
    id: "jobs",
    help: "In how many threads runs are made, 1 to 64",
    rules: &[
        Rule::Named("N"),
        Rule::Takes(Unsigned(1, 64)),
        Rule::Default("1"),
    ],
};

pub(crate) const WRITE: Argument = Argument {
    id: "write",
    help: "Writes the scripts of that case to new files DIR/0.script, DIR/1.script and so on",
    rules: &[
        Rule::Named("DIR"),
        Rule::Needs("only"),
        Rule::Excludes("seeds"),
    ],
};

pub(crate) const OUTCOMES: Argument = Argument {
    id: "log",
    help: "The log whose outcomes the calls that go outside take; - is standard input",
    rules: &[
        Rule::Named("FILE"),
        Rule::Excludes("patience"),
        Rule::Excludes("door-cost"),
    ],
};

pub(crate) const REPLACED_LOG: Argument = Argument {
    id: "log",
    help: "The log whose outcomes are replaced; - is standard input",
    rules: &[Rule::Named("FILE"), Rule::Required],
};

pub(crate) const ERRORS: Argument = Argument {
    id: "errors",
    help: "These errors, for each record, as EIO,ENOENT",
    rules: &[Rule::Named("E,E..")],
};

pub(crate) const SHORT: Argument = Argument {
    id: "short",
    help: "Also fewer bytes of reads and writes",
    rules: &[Rule::Flag],
};

pub(crate) const THEN: Argument = Argument {
    id: "then",
    help: "What comes where the log does not answer",
    rules: &[
        Rule::Named("WHAT"),
        Rule::Takes(Names(&["stop", "fail", "well"])),
        Rule::Default("well"),
    ],
};

pub(crate) const RAW: Argument = Argument {
    id: "raw",
    help: "Runs also differ where only the numbers of descriptors do",
    rules: &[Rule::Flag],
};

pub(crate) const FAILED: Argument = Argument {
    id: "failed",
    help: "Only the lines of what is a fault",
    rules: &[Rule::Flag],
};

pub(crate) const ALLOW_STOPS: Argument = Argument {
    id: "allow-stops",
    help: "Runs that stop, so that the rest was not looked at, are no fault",
    rules: &[Rule::Flag],
};

pub(crate) const ALLOW_BLOCKED: Argument = Argument {
    id: "allow-blocked",
    help: "Calls that are blocked for good are no fault",
    rules: &[Rule::Flag],
};

pub(crate) const CASE: Argument = Argument {
    id: "only",
    help: "The outcome to replace, and the error or count in its place, for --out",
    rules: &[
        Rule::Three(&["THREAD", "NUMBER", "ERROR"]),
        Rule::Excludes("errors"),
        Rule::Excludes("short"),
        Rule::Needs("out"),
    ],
};

pub(crate) const CASE_LOG: Argument = Argument {
    id: "out",
    help: "Writes the log of that case to this new file",
    rules: &[Rule::Named("FILE"), Rule::Needs("only")],
};

pub(crate) const FOLDER: Argument = Argument {
    id: "write",
    help: "Writes what is left to new files DIR/0.script, DIR/1.script and so on",
    rules: &[Rule::Named("DIR"), Rule::Required],
};

pub(crate) const RECORDED_LOG: Argument = Argument {
    id: "log",
    help: "The log to write",
    rules: &[Rule::Named("FILE"), Rule::Required],
};

pub(crate) const LOG_VERSION: Argument = Argument {
    id: "log-version",
    help: "The version of the log, 1 or 2: version 2 has the clocks of turns",
    rules: &[
        Rule::Named("N"),
        Rule::Takes(Signed(1, 2)),
        Rule::Default("2"),
    ],
};

pub(crate) const FORCE: Argument = Argument {
    id: "force",
    help: "Replaces the file at the log's path, a log or not",
    rules: &[Rule::Flag],
};

pub(crate) const FORCE_OF_SCRIPTS: Argument = Argument {
    id: "force",
    help: "Replaces the files that are there, for --write",
    rules: &[Rule::Flag, Rule::Needs("write")],
};

pub(crate) const FORCE_OF_CASE: Argument = Argument {
    id: "force",
    help: "Replaces the file that is there, for --out",
    rules: &[Rule::Flag, Rule::Needs("out")],
};

pub(crate) const FORCE_OF_PICTURES: Argument = Argument {
    id: "force",
    help: "Replaces the files that are there",
    rules: &[Rule::Flag],
};

pub(crate) const WAIT: Argument = Argument {
    id: "wait",
    help: "How long a call waits for a peer before others get a turn",
    rules: &[
        Rule::Named("MS"),
        Rule::Takes(Signed(0, 60_000)),
        Rule::Default("10"),
    ],
};

pub(crate) const IN_TURN: Argument = Argument {
    id: "in-turn",
    help: "Makes the calls to the outside in the order of their turns",
    rules: &[Rule::Flag],
};

pub(crate) const FOLLOW: Argument = Argument {
    id: "follow",
    help: "Prints each row on standard error too, once its call has a reply",
    rules: &[Rule::Flag],
};

pub(crate) const REPLAYED_LOG: Argument = Argument {
    id: "log",
    help: "The log to replay; - is standard input",
    rules: &[Rule::Named("FILE"), Rule::Required],
};

pub(crate) const BY_THREADS: Argument = Argument {
    id: "threads",
    help: "Runs each script in a thread of its own",
    rules: &[Rule::Flag],
};

pub(crate) const LOG_OF_RUN: Argument = Argument {
    id: "log",
    help: "The log to write (default: NAME.detio-log, NAME being the last part of PROGRAM)",
    rules: &[Rule::Named("FILE")],
};

pub(crate) const FORCE_OF_RUN: Argument = Argument {
    id: "force",
    help: "Replaces a file at the log's path",
    rules: &[Rule::Flag],
};

pub(crate) const THREADS: Argument = Argument {
    id: "threads",
    help: "How many threads may live at once, 1 to 16",
    rules: &[
        Rule::Named("N"),
        Rule::Takes(Signed(1, 16)),
        Rule::Default("16"),
    ],
};

pub(crate) const MEM: Argument = Argument {
    id: "mem",
    help: "Paths below it live in the run, in memory",
    rules: &[Rule::Named("PREFIX")],
};

pub(crate) const PASS: Argument = Argument {
    id: "pass",
    help: "Paths below it go to the host and are not recorded",
    rules: &[Rule::Named("PREFIX"), Rule::Repeated],
};

pub(crate) const SEED: Argument = Argument {
    id: "seed",
    help: "Works before calls and locks, for times that the seed says",
    rules: &[Rule::Named("S"), Rule::Takes(Unsigned(0, u64::MAX))],
};

pub(crate) const FAULT: Argument = Argument {
    id: "fault",
    help: "The K-th outcome from outside that can fail is EIO",
    rules: &[Rule::Named("K"), Rule::Takes(Unsigned(0, u64::MAX))],
};

pub(crate) const OVERLAP: Argument = Argument {
    id: "overlap",
    help: "Lets calls to the outside overlap",
    rules: &[Rule::Flag],
};

pub(crate) const PARALLEL: Argument = Argument {
    id: "parallel",
    help: "Lets threads compute at the same time",
    rules: &[Rule::Flag],
};

pub(crate) const STRICT: Argument = Argument {
    id: "strict",
    help: "Ends the run where something is refused or not recorded",
    rules: &[Rule::Flag],
};

pub(crate) const WAIT_FOREVER: Argument = Argument {
    id: "wait-forever",
    help: "Does not end a run in which each thread waits for another",
    rules: &[Rule::Flag],
};

pub(crate) const STOP_AT: Argument = Argument {
    id: "stop-at",
    help: "Stops the process at this call of a thread, for a debugger",
    rules: &[Rule::Named("THREAD,CALL")],
};

pub(crate) const ENV: Argument = Argument {
    id: "env",
    help: "An environment variable that the program has; it has no others then",
    rules: &[Rule::Named("NAME"), Rule::Repeated],
};

// It is not required, nor is the log of a rerun: the launcher reads these words, and this program answers all alike.
pub(crate) const PROGRAM: Argument = Argument {
    id: "program",
    help: "The program, by its path or its name",
    rules: &[Rule::Place("PROGRAM")],
};

pub(crate) const WORDS: Argument = Argument {
    id: "words",
    help: "The words that the program is given",
    rules: &[Rule::Place("ARGS"), Rule::Many],
};

pub(crate) const LOG_TO_RERUN: Argument = Argument {
    id: "log",
    help: "The log to run the program by",
    rules: &[Rule::Named("FILE")],
};

pub(crate) const FORCE_OF_RERUN: Argument = Argument {
    id: "force",
    help: "Goes on where the program, its libraries or its words differ from the log's",
    rules: &[Rule::Flag],
};

pub(crate) const ONE_LOG: Argument = Argument {
    id: "log",
    help: "One log to replay; - is standard input",
    rules: &[Rule::Named("FILE"), Rule::Required],
};

pub(crate) const WITH: Argument = Argument {
    id: "with",
    help: "The log to compare it with",
    rules: &[Rule::Named("FILE"), Rule::Required],
};

pub(crate) const ROWS: Argument = Argument {
    id: "rows",
    help: "Prints the rows that differ, those before, and how each replay ended",
    rules: &[Rule::Flag],
};

pub(crate) const NO_TURNS: Argument = Argument {
    id: "no-turns",
    help: "Compares calls and replies alone, whatever the clocks of their turns",
    rules: &[Rule::Flag],
};

pub(crate) const PAGE: Argument = Argument {
    id: "out",
    help: "The page to write, a new file",
    rules: &[Rule::Named("FILE"), Rule::RequiredWithout("trace")],
};

pub(crate) const TRACE: Argument = Argument {
    id: "trace",
    help: "The trace of the first run to write, a new file",
    rules: &[Rule::Named("FILE")],
};

pub(crate) const DRAWN_LOG: Argument = Argument {
    id: "log",
    help: "The log to replay; - is standard input",
    rules: &[
        Rule::Named("FILE"),
        Rule::Excludes("patience"),
        Rule::Excludes("door-cost"),
    ],
};

pub(crate) const SECOND_LOG: Argument = Argument {
    id: "with",
    help: "A second log, whose replay is drawn under that of the first",
    rules: &[
        Rule::Named("FILE"),
        Rule::Needs("log"),
        Rule::Excludes("patience"),
        Rule::Excludes("door-cost"),
    ],
};

pub(crate) const SHOWN_LOG: Argument = Argument {
    id: "log",
    help: "The log to print; - is standard input",
    rules: &[Rule::Named("FILE"), Rule::Required],
};

pub(crate) const MADE_LOG: Argument = Argument {
    id: "out",
    help: "The log to write",
    rules: &[Rule::Named("FILE"), Rule::Required],
};

pub(crate) const TEXT: Argument = Argument {
    id: "text",
    help: "The text of the log; - is standard input too",
    rules: &[Rule::Place("TEXT"), Rule::Default("/dev/stdin")],
};

pub(crate) const OLD_LOG: Argument = Argument {
    id: "log",
    help: "The log of version 1; - is standard input",
    rules: &[Rule::Named("FILE"), Rule::Required],
};

pub(crate) const NEW_LOG: Argument = Argument {
    id: "out",
    help: "The log of version 2 to write",
    rules: &[Rule::Named("FILE"), Rule::Required],
};

pub(crate) const FORCE_OF_UPGRADE: Argument = Argument {
    id: "force",
    help: "Replaces the file at the new log's path, a log or not",
    rules: &[Rule::Flag],
};
