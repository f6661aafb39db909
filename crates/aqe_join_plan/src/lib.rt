//! The plan of a join over the plans of its two sides.
#![tactic(auto)]

mod joins;
mod sides;
mod sizes;
mod widths;

pub use joins::joining;
pub use sides::joined;
pub use sizes::{JoinSides, way_by_sizes};
pub use widths::width_of;
