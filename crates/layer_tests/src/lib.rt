//! The tests of what the crates before the recorder say of the host, of time, of scripts and of runs,
//! each layer by itself. What their clauses pin, and what the program prints, has none here. They
//! stand in a crate of their own since a crate with tests is proved twice.
#![tactic(auto)]

#[cfg(test)]
mod runs;
#[cfg(test)]
mod scripts;
#[cfg(test)]
mod words;
