/// What may be done in one step. The numbers are those of the texts that were given, from 0.
#[derive(Clone, Copy, Debug, PartialEq, Eq)]
pub enum Removal {
    /// Takes away a line of a thread.
    Line {
        thread: usize,
        line: usize,
    },
    /// Takes away a thread, with all lines that are kept of it.
    Thread {
        thread: usize,
    },
    /// Makes a delay one of so many units.
    Shorten {
        thread: usize,
        line: usize,
        units: u64,
    },
}
