//! `detio check`, over any readers and writers.
//!
//! [`check_over`] reads the texts of scripts and prints which of their lines are bad, and why, and
//! what may be wrong with those that are scripts; by [`CheckOptions`] in JSON.
//! [`bad_expectation_line`] says which of the expectations of one is bad. Nothing is run.
#![tactic(auto)]

mod bad_lines;
mod checking;
mod concern_words;
mod expected_text;
mod expecting;
mod json_findings;
mod positions;
mod scripts;
mod shared_texts;
mod warning_lines;

pub use checking::{CheckOptions, check_over};
pub use expecting::bad_expectation_line;
