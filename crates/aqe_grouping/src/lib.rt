//! Grouped queries: the keys of GROUP BY, and expressions over the rows of the groups.
#![tactic(auto)]

mod chains;
mod group_by;
mod groups;
mod parts;
mod rewriting;
mod select_list;
mod spreading;

pub use group_by::grouping_keys;
pub use groups::Groups;
pub use rewriting::built;
pub use spreading::is_any_named;
