//! What the run of a query has come to, and the steps that lead from one state of it to the next.
#![tactic(auto)]

mod beginning;
mod ending;
mod make;
mod marks;
mod run;
mod settle;

pub use beginning::begin;
pub use ending::{end, note_whole};
pub use run::{Run, numbered};
pub use settle::turn;
