//! The parts of a condition.

ghost use Rattle.std.specs.Prelude.{◌≡◌, ◌++◌, [], ◌∷◌, IfOk, OnOk};
ghost use Rattle.aqe_columns.specs.Parts.{parts_of, is_and};

use aqe_expr::{BinaryOp, Expr};
use aqe_values::Memory;
use std::alloc::Global;

/// Copies of the conditions that the condition joins by AND, from left to right.
pub fn parts(alloc: Global, condition: &Expr) -> Result<Vec<Expr>, Memory>
    ensures { IfOk result (λ parts. parts.items ≡ parts_of condition.now) }
{
    let mut parts = Vec::new(alloc);
    match push_parts(alloc, &mut parts, condition) {
        Ok(()) => Ok(parts),
        Err(_) => Err(Memory),
    }
}

/// Appends the parts of the condition.
fn push_parts(alloc: Global, parts: &mut Vec<Expr>, condition: &Expr) -> Result<(), Memory>
    ensures { OnOk result (parts.new.items ≡ parts.old.items ++ parts_of condition.now) }
{
    match condition {
        Expr::Binary { op, left, right } => {
            if is_and(*op) {
                push_parts(alloc, parts, left.get())?;
                push_parts(alloc, parts, right.get())?;
                Ok(())
            } else {
                push_copy(alloc, parts, condition)
            }
        }
        _ => push_copy(alloc, parts, condition),
    }
}

/// Appends a copy of the part.
fn push_copy(alloc: Global, parts: &mut Vec<Expr>, part: &Expr) -> Result<(), Memory>
    ensures { OnOk result (parts.new.items ≡ parts.old.items ++ part.now ∷ []) }
{
    let part = part.copy(alloc)?;
    parts.push(part)?;
    Ok(())
}

/// Whether the operation is AND.
fn is_and(op: BinaryOp) -> bool
    ensures { result ≡ is_and op }
{
    matches!(op, BinaryOp::And)
}
