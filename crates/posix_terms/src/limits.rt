/// The limits of this profile.
pub struct Limits;

impl Limits {
    /// Threads that share one table: at least 1.
    pub const THREADS: usize = 16;
    /// Descriptors in the table, numbered from 0 (`OPEN_MAX`); as many open file descriptions.
    pub const DESCRIPTORS: usize = 32;
    /// Files, pipes, socket pairs and doors together.
    pub const OBJECTS: usize = 48;
    /// Names of files and directories, the root not counted.
    pub const NAMES: usize = 64;
    /// Bytes of a file.
    pub const FILE_BYTES: usize = 65_536;
    /// Bytes of one component of a path (`NAME_MAX`).
    pub const NAME_BYTES: usize = 14;
    /// Bytes of a path (`PATH_MAX` less its end byte).
    pub const PATH_BYTES: usize = 255;
    /// The greatest count of one read or write (`SSIZE_MAX`).
    pub const COUNT: usize = 32_767;
    /// Bytes of a pipe.
    pub const PIPE_BYTES: usize = 4_096;
    /// The greatest write of a pipe that goes whole (`PIPE_BUF`).
    pub const PIPE_BUF: usize = 512;
    /// Bytes of one direction of a socket pair.
    pub const PAIR_BYTES: usize = 32_768;
    /// The greatest port of a listener or a connection.
    pub const PORT: u64 = 65_535;
    /// No logical clock passes this.
    pub const CLOCK: u64 = 4_611_686_018_427_387_904;
    /// Outcomes from outside that one thread can have.
    pub const OUTCOMES: u32 = 134_217_728;
    /// Lines of a script's text.
    pub const SCRIPT_LINES: usize = 1_000;
    /// Lines that a script executes.
    pub const EXECUTED_LINES: usize = 10_000;
    /// The greatest operand of a script's `work`.
    pub const WORK: u64 = 1_000_000;
    /// Turns for which a call may be blocked: at least 1.
    pub const PATIENCE: u32 = 1_000_000;
    /// What a call that goes outside adds to its thread's clock: at least 1.
    pub const DOOR_COST: u32 = 1_000_000;
}
