//! What tasks read, which stages are needed, and what a stage is to the board.
#![tactic(auto)]

mod flags;
mod inputs;
mod kinds;
mod marks;
mod reading;
mod tasks;

pub use kinds::tag_of;
pub use marks::needed;
pub use tasks::reads_of;
