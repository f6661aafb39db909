//! LIKE: which texts a pattern describes.
#![tactic(auto)]

mod pattern;
mod search;

pub use pattern::likes;
