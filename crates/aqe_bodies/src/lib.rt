//! What stages are made of can be carried out.
#![tactic(auto)]

mod laws;

pub use laws::{
    bodies_of_stages_run, later_stages_keep_running, later_stages_keep_samples,
    makings_keep_running, makings_keep_samples,
};
