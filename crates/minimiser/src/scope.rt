/// What may be taken away.
#[derive(Clone, Copy, Debug, PartialEq, Eq)]
pub enum Scope {
    /// Lines and threads.
    Everything,
    /// The delays, which are the lines of work. Each other line and each thread stands.
    Schedule,
}
