//! Expressions with their columns replaced.

ghost use Rattle.std.specs.Prelude.{◌≡◌, IfOk, slice_index_or};
ghost use Rattle.aqe_values.specs.declared.value.Value.TheVariants.{Null};
ghost use Rattle.aqe_columns.specs.Replacing as spec;

use aqe_boxes::{all_three, both};
use aqe_expr::{CasePairs, Expr, Operands};
use aqe_values::{Memory, Value};
use std::alloc::Global;

/// The expression with each column replaced by a copy of the item of its number, and by NULL where
/// there is no such item.
#[cycle(replacing)]
#[tactic(auto, using(crate::proofs::ReplacingSteps::replacing_steps))]
pub fn replaced(alloc: Global, expr: &Expr, items: &[Expr]) -> Result<Expr, Memory>
    ensures { IfOk result (λ e. e ≡ spec.replaced items.now expr.now) }
{
    match expr {
        Expr::Column(n) => item_at(alloc, items, *n),
        Expr::Literal(value) => literal(alloc, value),
        Expr::Unary { op, arg } => {
            let arg = replaced(alloc, arg.get(), items)?;
            Expr::unary(alloc, *op, arg)
        }
        Expr::Binary { op, left, right } => {
            let (left, right) = both(
                replaced(alloc, left.get(), items),
                replaced(alloc, right.get(), items),
            )?;
            Expr::binary(alloc, *op, left, right)
        }
        Expr::Between { value, low, high } => {
            let (value, low, high) = all_three(
                replaced(alloc, value.get(), items),
                replaced(alloc, low.get(), items),
                replaced(alloc, high.get(), items),
            )?;
            Expr::between(alloc, value, low, high)
        }
        Expr::OneOf { value, list } => {
            let (value, list) = both(
                replaced(alloc, value.get(), items),
                replaced_list(alloc, list, items),
            )?;
            Expr::one_of(alloc, value, list)
        }
        Expr::Case { pairs, otherwise } => {
            let (pairs, otherwise) = both(
                replaced_pairs(alloc, pairs, items),
                replaced(alloc, otherwise.get(), items),
            )?;
            Expr::case_of(alloc, pairs, otherwise)
        }
        Expr::Switch {
            operand,
            pairs,
            otherwise,
        } => {
            let (operand, pairs, otherwise) = all_three(
                replaced(alloc, operand.get(), items),
                replaced_pairs(alloc, pairs, items),
                replaced(alloc, otherwise.get(), items),
            )?;
            Expr::switch(alloc, operand, pairs, otherwise)
        }
        Expr::Coalesce(list) => {
            let list = replaced_list(alloc, list, items)?;
            Ok(Expr::Coalesce(list))
        }
    }
}

/// The chain with the columns of each expression replaced.
#[cycle(replacing)]
fn replaced_list(alloc: Global, list: &Operands, items: &[Expr]) -> Result<Operands, Memory>
    ensures { IfOk result (λ l. l ≡ spec.replaced_list items.now list.now) }
{
    let mut made = Vec::new(alloc);
    let mut rest = list;
    'walk: while let Operands::More { item, rest: more } = rest {
        let item = replaced(alloc, item.get(), items)?;
        made.push(item)?;
        rest = more.get();
    }
    Operands::from_vec(alloc, made)
}

/// The chain of pairs with the columns of each expression replaced.
#[cycle(replacing)]
fn replaced_pairs(alloc: Global, pairs: &CasePairs, items: &[Expr]) -> Result<CasePairs, Memory>
    ensures { IfOk result (λ l. l ≡ spec.replaced_pairs items.now pairs.now) }
{
    let mut made = Vec::new(alloc);
    let mut rest = pairs;
    'walk: while let CasePairs::More {
        test,
        gives,
        rest: more,
    } = rest
    {
        let (test, gives) = both(
            replaced(alloc, test.get(), items),
            replaced(alloc, gives.get(), items),
        )?;
        made.push((test, gives))?;
        rest = more.get();
    }
    CasePairs::from_vec(alloc, made)
}

/// A copy of the item of this number, or NULL.
fn item_at(alloc: Global, items: &[Expr], n: u32) -> Result<Expr, Memory>
    ensures { IfOk result (λ e. e ≡ slice_index_or items.now n (Expr.Literal Null)) }
{
    match items.get(n as usize) {
        Some(item) => item.copy(alloc),
        None => Ok(Expr::Literal(Value::Null)),
    }
}

/// The literal of a copy of the value.
fn literal(alloc: Global, value: &Value) -> Result<Expr, Memory>
    ensures { IfOk result (λ e. e ≡ Expr.Literal value.now) }
{
    let value = value.copy(alloc)?;
    Ok(Expr::Literal(value))
}
