//! The writing of exchanges: rows into the cells of a map's output.
#![tactic(auto)]

mod key;
mod parts;
mod write;

pub use parts::Parts;
pub use write::{spread_hash, spread_single, write_hash, write_single};
