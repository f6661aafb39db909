//! Rectangles of cells: what it means that they cover, and that pairs of them serve a join.
#![tactic(auto)]

mod laws;

pub use laws::plain_rectangles_cover;
