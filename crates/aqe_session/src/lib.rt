//! One query: its plan is made and carried out stage by stage, and a legal record is noted of it.
#![tactic(auto)]

mod query;
mod record;
mod session;

pub use query::{QueryEnd, Rest, is_done, run_to_end};
pub use record::record_of;
pub use session::run_query;
