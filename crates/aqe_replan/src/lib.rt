//! The versions of a query's plan: which stages can be made of it, and the plan once they are made.
#![tactic(auto)]

mod laws;
mod making;
mod ready;
mod replacing;
mod versions;

pub use laws::{
    first_plans_have_few_parts, others_stay_ready, ready_can_be_made, stages_are_made_of_the_plan,
};
pub use making::{Making, Makings, Sides};
pub use versions::Versions;
