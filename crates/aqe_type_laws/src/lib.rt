//! The laws of types: the values of an expression are of the type that the analysis gives it.
#![tactic(auto)]

mod laws;

pub use laws::{
    answers_fit_the_columns, expressions_are_typed, nodes_are_typed, plans_are_typed,
    plans_keep_types, tables_fit_the_scans,
};
