//! The first physical plan of a query, before anything of it was run.
#![tactic(auto)]

mod first;
mod groups;
mod limits;
mod sorts;
mod unions;

pub use first::first_plan;
