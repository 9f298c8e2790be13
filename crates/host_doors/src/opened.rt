use posix_terms::Outcome;

/// What came of an opening: the outcome and, at a success, the door.
#[derive(Debug, Drop)]
pub struct Opened<D> {
    pub outcome: Outcome,
    pub door: Option<D>,
}
