//! The course of a run as data: its command, its statements, and how it ends.
#![tactic(auto)]

mod laws;

pub use laws::{
    each_run_ends, ends_tell, queries_have_the_settings_in_force, refusals_are_of_the_course,
    runs_answer_the_same, runs_end_in_one_way, runs_have_one_refusal, runs_keep_ranges,
    runs_keep_shapes, runs_number_their_queries,
};
