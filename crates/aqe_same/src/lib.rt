//! Whether two expressions, and two aggregate calls, are the same.
#![tactic(auto)]

mod calls;
mod exprs;

pub use calls::same_call;
pub use exprs::same_expr;
