//! The select list of a SELECT: its output columns, or the first check that fails.
#![tactic(auto)]

mod building;
mod output_names;
mod outputs;

pub use building::Building;
pub use outputs::{OutputColumn, Outputs, Shown, output_columns};
