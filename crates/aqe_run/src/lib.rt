//! What carries out the course of a run: its script is opened, and its statements are carried out one by one.
#![tactic(auto)]

mod loading;
mod made;
mod opening;
mod run;
mod statement;

pub use opening::opened;
pub use run::run_script;
