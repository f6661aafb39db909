//! The choice of a join's way by the sizes of its sides.
#![tactic(auto)]

mod laws;
mod sizes;
mod ways;

pub use laws::{chosen_sides_may_be_built, unknown_sides_are_merged};
pub use sizes::{JoinChoice, JoinRule, SideSizes, SizeSource};
pub use ways::{choose, fits_broadcast, many_empty, prefers_hash};
