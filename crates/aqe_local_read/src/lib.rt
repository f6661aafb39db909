//! The rectangles of local reads, which take the cells map by map.
#![tactic(auto)]

mod laws;
mod rects;

pub use laws::{local_rectangles_cover, runs_are_even};
pub use rects::local_rects;
