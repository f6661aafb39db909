//! Which columns an expression reads.

ghost use Rattle.std.specs.Prelude.{◌≡◌, ◌++◌, IfOk, OnOk};
ghost use Rattle.aqe_columns.specs.Reading as spec;

use aqe_expr::{CasePairs, Expr, Operands};
use aqe_values::Memory;
use std::alloc::Global;

/// The numbers of the columns that the expression reads, in its order.
///
/// A column comes as often as it is read.
pub fn columns(alloc: Global, expr: &Expr) -> Result<Vec<u32>, Memory>
    ensures { IfOk result (λ found. found.items ≡ spec.columns_of expr.now) }
{
    let mut found = Vec::new(alloc);
    push_columns(&mut found, expr)?;
    Ok(found)
}

/// Appends the columns of an expression.
#[cycle(columns)]
#[tactic(auto, using(crate::proofs::ReadingSteps::reading_steps))]
fn push_columns(found: &mut Vec<u32>, expr: &Expr) -> Result<(), Memory>
    ensures { OnOk result (found.new.items ≡ found.old.items ++ spec.columns_of expr.now) }
{
    match expr {
        Expr::Column(n) => {
            found.push(*n)?;
            Ok(())
        }
        Expr::Literal(_) => Ok(()),
        Expr::Unary { arg, .. } => push_columns(found, arg.get()),
        Expr::Binary { left, right, .. } => {
            push_columns(found, left.get())?;
            push_columns(found, right.get())
        }
        Expr::Between { value, low, high } => {
            push_columns(found, value.get())?;
            push_columns(found, low.get())?;
            push_columns(found, high.get())
        }
        Expr::OneOf { value, list } => {
            push_columns(found, value.get())?;
            push_operands(found, list)
        }
        Expr::Case { pairs, otherwise } => {
            push_pairs(found, pairs)?;
            push_columns(found, otherwise.get())
        }
        Expr::Switch {
            operand,
            pairs,
            otherwise,
        } => {
            push_columns(found, operand.get())?;
            push_pairs(found, pairs)?;
            push_columns(found, otherwise.get())
        }
        Expr::Coalesce(list) => push_operands(found, list),
    }
}

/// Appends the columns of a chain of expressions.
#[cycle(columns)]
fn push_operands(found: &mut Vec<u32>, list: &Operands) -> Result<(), Memory>
    ensures { OnOk result (found.new.items ≡ found.old.items ++ spec.columns_in_list list.now) }
{
    let mut rest = list;
    'items: while let Operands::More { item, rest: more } = rest {
        push_columns(found, item.get())?;
        rest = more.get();
    }
    Ok(())
}

/// Appends the columns of a chain of pairs.
#[cycle(columns)]
fn push_pairs(found: &mut Vec<u32>, pairs: &CasePairs) -> Result<(), Memory>
    ensures { OnOk result (found.new.items ≡ found.old.items ++ spec.columns_in_pairs pairs.now) }
{
    let mut rest = pairs;
    'pairs: while let CasePairs::More {
        test,
        gives,
        rest: more,
    } = rest
    {
        push_columns(found, test.get())?;
        push_columns(found, gives.get())?;
        rest = more.get();
    }
    Ok(())
}
