//! One SELECT: the plan of its clauses over the plan of its FROM, or the first check that fails.
#![tactic(auto)]

mod clauses;
mod copies;
mod grouped;
mod having;
mod one_select;
mod orders;
mod plans;
mod reading;
mod scope;

pub use clauses::Clauses;
pub use one_select::select;
