//! Histories in which tasks end and nothing is lost.
#![tactic(auto)]

mod laws;

pub use laws::{marks_may_repeat, next_endings_count, whole_stages_stay};
