//! The events of a run, read from a file of lines.
#![tactic(auto)]

mod fault;
mod laws;

pub use fault::EventFault;
pub use laws::one_reading;
