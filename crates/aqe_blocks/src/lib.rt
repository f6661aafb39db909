//! The outputs of maps: lists of cells, one for each reducer, each a list of rows.
#![tactic(auto)]

mod cell;
mod map_output;
mod outputs;
mod row_ref;
mod stage_outputs;

pub use cell::copy_of_rows;
pub use map_output::{Cells, MapOutput, encode, measured};
pub use outputs::Outputs;
pub use row_ref::{RowRef, RowsIter, ValueRef};
