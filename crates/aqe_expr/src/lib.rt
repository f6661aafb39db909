//! Expressions over the columns of a row, and their values.
#![tactic(auto)]

mod copying;
mod evaluate;
mod expr;
mod laws;
mod seen;

pub use aqe_like::likes;
pub use aqe_scalar::truth;
pub use evaluate::eval;
pub use expr::{BinaryOp, CasePairs, Expr, Operands, UnaryOp};
pub use laws::{binary_equal_as_written, unary_equal_as_written};
