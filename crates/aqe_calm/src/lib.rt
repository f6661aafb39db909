//! Runs in which nothing but the rest ends tasks.
#![tactic(auto)]

mod laws;

pub use laws::{
    next_tasks_are_served, rest_runs_are_calm, rest_runs_end_done, results_hold_the_rows,
    tasks_are_left, whole_stages_turn,
};
