//! The loaded tables of a query as its answers know them, and what planning knows of them.
#![tactic(auto)]

mod estimates;

pub use estimates::estimates_of;
