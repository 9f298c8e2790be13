//! Scripts: the faults of texts that are none, a script made in code, and what a text expects of
//! its calls' replies.

mod expected;
mod faults;
mod made;
