//! The text of a script: what the reader reads back as the same script.
#![tactic(auto)]

mod query;
mod query_leaf;
mod statement;
mod table;

pub use statement::spell;
