//! The columns that an expression reads, their replacement, and the parts of a condition.
#![tactic(auto)]

mod cutting;
mod laws;
mod reading;
mod replacing;

pub use cutting::parts;
pub use laws::{
    columns_below_as_data, parts_hold_together, replacement_keeps_the_value,
    values_read_their_columns,
};
pub use reading::columns;
pub use replacing::replaced;
