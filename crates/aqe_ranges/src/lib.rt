//! Exchanges by range: samples of keys, the bounds of ranges, and rows written into the cells of their ranges.
#![tactic(auto)]

mod bounding;
mod place;
mod sampling;
mod spreading;
mod writing;

pub use bounding::bounds;
pub use sampling::sample;
pub use writing::{spread_range, write_range};
