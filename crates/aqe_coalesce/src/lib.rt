//! Partitions put together into groups of about a wanted size.
#![tactic(auto)]

mod groups;
mod laws;
mod packing;

pub use groups::Groups;
pub use laws::{one_list_of_groups, some_list_of_groups};
pub use packing::{cuts, target};
