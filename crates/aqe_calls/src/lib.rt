//! The aggregate calls of a grouped query.
#![tactic(auto)]

mod called;
mod calls;
mod query;
mod scope;

pub use query::calls_of;
