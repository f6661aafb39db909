//! Where the rows of a plan stand, and plans with the place of their rows.
#![tactic(auto)]

mod joined;
mod placing;
mod relying;
mod standing;

pub use joined::{after_join, columns_from, is_hash_of, placed_behind};
pub use placing::{after_groups, after_project, is_single, keeps_groups};
pub use relying::relies_on_place;
pub use standing::{Standing, filtered, is_kept_whole, is_nothing, projected, stands};
