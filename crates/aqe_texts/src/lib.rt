//! What is printed: the rows of an answer, and the line that tells why a run ended.
#![tactic(auto)]

mod fault;
mod laws;
mod place;
mod position;
mod text;

pub use fault::report;
pub use laws::texts_tell_rows;
pub use place::FaultPlace;
pub use text::result_text;
