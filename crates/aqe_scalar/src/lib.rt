//! Operations on values: three-valued logic, comparisons, arithmetic and casts.
#![tactic(auto)]

mod casting;
mod laws;
mod logic;
mod number;

pub use casting::{as_bigint, as_boolean, as_int, as_text, character_count};
pub use laws::keys_meet_where_same;
pub use logic::{
    Truth, at_least, at_most, between, both, differs, either, equals, greater, is_false,
    is_known_true, is_null, less, opposite, truth, truth_of, truth_value,
};
pub use number::{difference, negation, product, quotient, remainder, sum};
