// The subcommands: the one definition of which options each has.
use crate::options::*;

// A subcommand: its name, and its options and words in the order of its help.
#[derive(Clone, Copy)]
pub(crate) struct Subcommand {
    pub name: &'static str,
    pub arguments: &'static [Argument],
}

// The subcommands, in the order in which the program's help has them.
#[derive(Clone, Copy)]
pub(crate) enum Kind {
    Check,
    Plain,
    Explore,
    Faults,
    Minimise,
    Record,
    Replay,
    Run,
    Rerun,
    Compare,
    Draw,
    Show,
    Make,
    Upgrade,
}

impl Kind {
    pub(crate) const ALL: [Kind; 14] = [
        Kind::Check,
        Kind::Plain,
        Kind::Explore,
        Kind::Faults,
        Kind::Minimise,
        Kind::Record,
        Kind::Replay,
        Kind::Run,
        Kind::Rerun,
        Kind::Compare,
        Kind::Draw,
        Kind::Show,
        Kind::Make,
        Kind::Upgrade,
    ];
}

pub(crate) const CHECK: Subcommand = Subcommand {
    name: "check",
    arguments: &[JSON, CHECK_EXPECTATIONS, SCRIPTS_TO_CHECK, WHY],
};

pub(crate) const PLAIN: Subcommand = Subcommand {
    name: "plain",
    arguments: &[
        PATIENCE, DOOR_COST, TURNS, CALLS, BY_TURN, LANES, JSON, EXPECT, SCRIPTS, WHY,
    ],
};

pub(crate) const EXPLORE: Subcommand = Subcommand {
    name: "explore",
    arguments: &[
        SEEDS,
        DELAYS,
        MOST,
        ONLY,
        REACH,
        RAW,
        JSON,
        FAILED,
        ALLOW_STOPS,
        ALLOW_BLOCKED,
        JOBS,
        WRITE,
        FORCE_OF_SCRIPTS,
        PATIENCE,
        DOOR_COST,
        OUTCOMES,
        SCRIPTS,
        WHY,
    ],
};

pub(crate) const FAULTS: Subcommand = Subcommand {
    name: "faults",
    arguments: &[
        REPLACED_LOG,
        ERRORS,
        SHORT,
        THEN,
        JSON,
        FAILED,
        ALLOW_STOPS,
        ALLOW_BLOCKED,
        CASE,
        CASE_LOG,
        FORCE_OF_CASE,
        JOBS,
        SCRIPTS,
        WHY,
    ],
};

pub(crate) const MINIMISE: Subcommand = Subcommand {
    name: "minimise",
    arguments: &[
        FOLDER,
        FORCE_OF_SCRIPTS,
        SCHEDULE,
        SAME,
        PATIENCE,
        DOOR_COST,
        OUTCOMES,
        SCRIPTS,
        WHY,
    ],
};

pub(crate) const RECORD: Subcommand = Subcommand {
    name: "record",
    arguments: &[
        RECORDED_LOG,
        LOG_VERSION,
        FORCE,
        WAIT,
        IN_TURN,
        FOLLOW,
        PATIENCE,
        DOOR_COST,
        TURNS,
        CALLS,
        BY_TURN,
        LANES,
        JSON,
        EXPECT,
        SCRIPTS,
        WHY,
    ],
};

pub(crate) const REPLAY: Subcommand = Subcommand {
    name: "replay",
    arguments: &[
        REPLAYED_LOG,
        BY_THREADS,
        TURNS,
        CALLS,
        BY_TURN,
        LANES,
        JSON,
        EXPECT,
        SCRIPTS,
        WHY,
    ],
};

pub(crate) const RUN: Subcommand = Subcommand {
    name: "run",
    arguments: &[
        LOG_OF_RUN,
        FORCE_OF_RUN,
        THREADS,
        MEM,
        PASS,
        SEED,
        FAULT,
        OVERLAP,
        PARALLEL,
        STRICT,
        WAIT_FOREVER,
        ENV,
        PROGRAM,
        WORDS,
    ],
};

pub(crate) const RERUN: Subcommand = Subcommand {
    name: "rerun",
    arguments: &[LOG_TO_RERUN, FORCE_OF_RERUN, STOP_AT, PROGRAM, WORDS],
};

pub(crate) const COMPARE: Subcommand = Subcommand {
    name: "compare",
    arguments: &[ONE_LOG, WITH, ROWS, NO_TURNS, JSON, SCRIPTS, WHY],
};

pub(crate) const DRAW: Subcommand = Subcommand {
    name: "draw",
    arguments: &[
        PAGE,
        TRACE,
        FORCE_OF_PICTURES,
        DRAWN_LOG,
        SECOND_LOG,
        PATIENCE,
        DOOR_COST,
        SCRIPTS,
        WHY,
    ],
};

pub(crate) const SHOW: Subcommand = Subcommand {
    name: "show",
    arguments: &[SHOWN_LOG, JSON, WHY],
};

pub(crate) const MAKE: Subcommand = Subcommand {
    name: "make",
    arguments: &[MADE_LOG, FORCE, TEXT, WHY],
};

pub(crate) const UPGRADE: Subcommand = Subcommand {
    name: "upgrade",
    arguments: &[OLD_LOG, NEW_LOG, FORCE_OF_UPGRADE, SCRIPTS, WHY],
};
