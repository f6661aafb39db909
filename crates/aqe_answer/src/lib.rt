//! The answer of a query whose tables are loaded: its record in the journal, and the text of its result.
#![tactic(auto)]

mod answering;

pub use answering::answer;
