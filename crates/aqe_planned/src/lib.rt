//! The law of planning: each query that is analysed can be planned.
#![tactic(auto)]

mod laws;

pub use laws::queries_are_planned;
