//! One task: the cells of one part of a stage's body.
#![tactic(auto)]

mod behind;
mod joining;
mod keeping;
mod part;
mod part_rows;
mod reading;
mod runner;
mod sending;
mod steps;
mod task;

pub use runner::{RanTasks, Runner, TaskRunner};
pub use task::run_task;
