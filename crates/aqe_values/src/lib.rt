//! The values of SQL, rows of them, and the names and types of columns.
#![tactic(auto)]

mod laws;
mod listing;
mod memory;
mod placing;
mod row;
mod schema;
mod size;
mod sort_way;
mod sql_type;
mod text;
mod value;

pub use laws::{
    key_rows_totally_ordered, rows_equal_as_data, sorted_is_in_order, values_equal_as_data,
    values_equal_by_cases, values_ordered_by_type,
};
pub use listing::Listing;
pub use memory::Memory;
pub use placing::{murmur, place_of};
pub use row::{Row, Rows};
pub use schema::{Field, Schema};
pub use size::row_size;
pub use sort_way::{SortWay, SortWays, compare, compare_keys};
pub use sql_type::SqlType;
pub use text::Text;
pub use value::Value;
