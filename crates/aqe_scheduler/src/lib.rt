//! The board of a query: which tasks are done, what becomes of each event, and which task ends next when no event is left.
#![tactic(auto)]

mod board;
mod cursors;
mod fate;
mod fates;
mod laws;
mod looks;
mod need;
mod rest;
mod settle;
mod stage;
mod task;

pub use board::Board;
pub use fate::Fate;
pub use laws::{fates_are_right, others_run_once, reruns_are_bounded};
pub use need::{Need, Needs, Reads, StageKindTag};
