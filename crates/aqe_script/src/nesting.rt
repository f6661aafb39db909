//! The nesting of expressions, measured as far as there is room for it.
//!
//! Each function here answers the nesting of its tree where it is at most `room`, and else `None`.

ghost use Rattle.std.specs.Prelude.{◌≡◌, ◌≤◌, ◌+◌, suc, length, map, max, option_map};
ghost use Rattle.aqe_script.specs.Measured.{Measured};
ghost use Rattle.aqe_script.specs.Levels as spec;

use crate::parts::{
    and_parts, arm_parts, comparison_parts, not_parts, or_parts, predicate_parts, product_parts,
    sign_parts, sum_parts,
};
use aqe_trees::{
    AndTree, Arm, ComparisonTree, NotTree, OrTree, PredicateTree, PrimaryTree, ProductTree,
    SignTree, SumTree, Test,
};
use sqlite_items::Boxed;

/// A node over parts of this nesting.
pub(crate) fn above(depth: usize, room: usize) -> Option<usize>
    ensures { Measured (suc depth) room result }
{
    if depth >= room {
        return None;
    }
    Some(depth + 1)
}

/// A node over two parts.
pub(crate) fn over(a: usize, b: usize, room: usize) -> Option<usize>
    ensures { Measured (spec.over a b) room result }
{
    above(a.max(b), room)
}

/// So many nodes over a part.
fn so_many_over(count: u64, depth: usize, room: usize) -> Option<usize>
    requires { depth ≤ room }
    ensures { Measured (count + depth) room result }
{
    if count > (room - depth) as u64 {
        return None;
    }
    Some(count as usize + depth)
}

/// The nesting of operands of OR.
#[cycle(expression)]
pub(crate) fn or(tree: &OrTree, room: usize) -> Option<usize>
    ensures { Measured (spec.or_nesting tree.now) room result }
{
    let (first, rest) = or_parts(tree);
    let mut depth = and(first, room)?;
    'more: for next in rest {
        let Some(one) = and(next, room) else {
            return None;
        };
        let Some(more) = over(depth, one, room) else {
            return None;
        };
        depth = more;
    }
    Some(depth)
}

/// The nesting of operands of AND.
#[cycle(expression)]
fn and(tree: &AndTree, room: usize) -> Option<usize>
    ensures { Measured (spec.and_nesting tree.now) room result }
{
    let (first, rest) = and_parts(tree);
    let mut depth = negation(first, room)?;
    'more: for next in rest {
        let Some(one) = negation(next, room) else {
            return None;
        };
        let Some(more) = over(depth, one, room) else {
            return None;
        };
        depth = more;
    }
    Some(depth)
}

/// The nesting of a predicate under its NOTs.
#[cycle(expression)]
fn negation(tree: &NotTree, room: usize) -> Option<usize>
    ensures { Measured (spec.not_nesting tree.now) room result }
{
    let (count, operand) = not_parts(tree);
    let depth = predicate(operand, room)?;
    so_many_over(count, depth, room)
}

/// The nesting of a value and what is asked of it.
#[cycle(expression)]
fn predicate(tree: &PredicateTree, room: usize) -> Option<usize>
    ensures { Measured (spec.predicate_nesting tree.now) room result }
{
    let (value, test) = predicate_parts(tree);
    let depth = comparison(value, room)?;
    asked(test, depth, room)
}

/// The nesting of a test over a value.
#[cycle(expression)]
fn asked(test: &Test, value: usize, room: usize) -> Option<usize>
    requires { value ≤ room }
    ensures { Measured (spec.test_nesting test.now value) room result }
{
    match test {
        Test::Plain => Some(value),
        Test::Between { low, high, .. } => {
            let low = comparison(low, room)?;
            let high = comparison(high, room)?;
            above(value.max(low.max(high)), room)
        }
        Test::OneOf { list: items, .. } => {
            let depth = list(items.as_slice(), room)?;
            above(value.max(depth), room)
        }
        Test::Like { pattern, .. } => {
            let depth = comparison(pattern, room)?;
            above(value.max(depth), room)
        }
        Test::Is { .. } => above(value, room),
    }
}

/// The greatest nesting of some expressions.
#[cycle(expression)]
pub(crate) fn list(items: &[OrTree], room: usize) -> Option<usize>
    ensures { Measured (spec.deepest (map spec.or_nesting items.now)) room result }
{
    let mut depth = 0usize;
    'items: for next in items {
        let Some(one) = or(next, room) else {
            return None;
        };
        depth = depth.max(one);
    }
    Some(depth)
}

/// The nesting of sums that are compared.
#[cycle(expression)]
fn comparison(tree: &ComparisonTree, room: usize) -> Option<usize>
    ensures { Measured (spec.comparison_nesting tree.now) room result }
{
    let (first, rest) = comparison_parts(tree);
    let mut depth = sum(first, room)?;
    'more: for next in rest {
        let Some(one) = sum(&next.1, room) else {
            return None;
        };
        let Some(more) = over(depth, one, room) else {
            return None;
        };
        depth = more;
    }
    Some(depth)
}

/// The nesting of products that are added.
#[cycle(expression)]
fn sum(tree: &SumTree, room: usize) -> Option<usize>
    ensures { Measured (spec.sum_nesting tree.now) room result }
{
    let (first, rest) = sum_parts(tree);
    let mut depth = product(first, room)?;
    'more: for next in rest {
        let Some(one) = product(&next.1, room) else {
            return None;
        };
        let Some(more) = over(depth, one, room) else {
            return None;
        };
        depth = more;
    }
    Some(depth)
}

/// The nesting of signed operands that are multiplied.
#[cycle(expression)]
fn product(tree: &ProductTree, room: usize) -> Option<usize>
    ensures { Measured (spec.product_nesting tree.now) room result }
{
    let (first, rest) = product_parts(tree);
    let mut depth = sign(first, room)?;
    'more: for next in rest {
        let Some(one) = sign(&next.1, room) else {
            return None;
        };
        let Some(more) = over(depth, one, room) else {
            return None;
        };
        depth = more;
    }
    Some(depth)
}

/// The nesting of an operand under its signs.
#[cycle(expression)]
fn sign(tree: &SignTree, room: usize) -> Option<usize>
    ensures { Measured (spec.sign_nesting tree.now) room result }
{
    let (signs, operand) = sign_parts(tree);
    let depth = primary(operand, room)?;
    so_many_over(signs.len() as u64, depth, room)
}

/// The nesting of an operand.
#[cycle(expression)]
fn primary(tree: &PrimaryTree, room: usize) -> Option<usize>
    ensures { Measured (spec.primary_nesting tree.now) room result }
{
    match tree {
        PrimaryTree::Number { .. } => above(0, room),
        PrimaryTree::Literal(_) => above(0, room),
        PrimaryTree::Boolean(_) => above(0, room),
        PrimaryTree::Null => above(0, room),
        PrimaryTree::Column(_) => above(0, room),
        PrimaryTree::TableColumn { .. } => above(0, room),
        PrimaryTree::CountAll => above(0, room),
        PrimaryTree::Paren(value) => {
            let depth = or(value.get(), room)?;
            above(depth, room)
        }
        PrimaryTree::Cast { value, .. } => {
            let depth = or(value.get(), room)?;
            above(depth, room)
        }
        PrimaryTree::Case {
            operand,
            arms: pairs,
            otherwise,
        } => {
            let operand = maybe(operand, room)?;
            let pairs = arms(pairs.as_slice(), room)?;
            let otherwise = maybe(otherwise, room)?;
            above(operand.max(pairs.max(otherwise)), room)
        }
        PrimaryTree::Call { arguments, .. } => {
            let depth = list(arguments.as_slice(), room)?;
            above(depth, room)
        }
    }
}

/// The nesting of an expression that may be missing.
#[cycle(expression)]
fn maybe(value: &Option<Boxed<OrTree>>, room: usize) -> Option<usize>
    ensures { Measured (spec.of_maybe (option_map spec.or_nesting value.now)) room result }
{
    match value {
        Some(value) => or(value.get(), room),
        None => Some(0),
    }
}

/// The greatest nesting of the arms of a CASE.
#[cycle(expression)]
fn arms(pairs: &[Arm], room: usize) -> Option<usize>
    ensures { Measured (spec.deepest (map spec.arm_nesting pairs.now)) room result }
{
    let mut depth = 0usize;
    'arms: for next in pairs {
        let Some(one) = arm(next, room) else {
            return None;
        };
        depth = depth.max(one);
    }
    Some(depth)
}

/// The nesting of an arm.
#[cycle(expression)]
fn arm(pair: &Arm, room: usize) -> Option<usize>
    ensures { Measured (spec.arm_nesting pair.now) room result }
{
    let (when, gives) = arm_parts(pair);
    let when = or(when, room)?;
    let gives = or(gives, room)?;
    Some(when.max(gives))
}
