//! The stable sort of rows, and the key rows by which it orders them.
#![tactic(auto)]

mod keys;
mod sorting;

pub use keys::{compare_keys, key_row};
pub use sorting::sort_rows;
