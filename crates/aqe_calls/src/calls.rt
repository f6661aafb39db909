//! The aggregate calls in an expression, from left to right.
//!
//! Each function adds those of its part of a tree. No aggregate call can stand in the argument of another one, so none is
//! looked for there.

ghost use Rattle.std.specs.Prelude.{◌≡◌, OnOk};
ghost use Rattle.aqe_calls.specs.Added.{Added};
ghost use Rattle.aqe_calls.specs.Calls.{place_of, calls_of_or, calls_of_and, calls_of_not, calls_of_predicate, calls_of_test, calls_of_comparison, calls_of_sum, calls_of_product, calls_of_sign, calls_of_primary, calls_of_arm, calls_of_list, calls_of_arms, calls_if_any};

use crate::called::{add_call, count_all};
use crate::scope::Scope;
use aqe_base::{Listing, Memory};
use aqe_script::parts::{
    and_parts, arm_parts, comparison_parts, not_parts, or_parts, predicate_parts, product_parts,
    sign_parts, sum_parts,
};
use aqe_trees::{
    AndTree, Arm, ComparisonTree, NotTree, OrTree, PredicateTree, PrimaryTree, ProductTree,
    SignTree, SumTree, Test,
};
use aqe_typing::{Call, aggregate_named};
use sqlite_items::Boxed;
use std::alloc::Global;

/// In operands of OR.
#[cycle(calls)]
pub(crate) fn or(
    alloc: Global,
    tree: &OrTree,
    scope: &Scope,
    calls: &mut Listing<Call>,
) -> Result<(), Memory>
    ensures { OnOk result (Added calls.old calls.new (calls_of_or tree.now (place_of scope.now))) }
{
    let (first, rest) = or_parts(tree);
    and(alloc, first, scope, calls)?;
    'more: for next in rest {
        and(alloc, next, scope, calls)?;
    }
    Ok(())
}

/// In operands of AND.
#[cycle(calls)]
fn and(
    alloc: Global,
    tree: &AndTree,
    scope: &Scope,
    calls: &mut Listing<Call>,
) -> Result<(), Memory>
    ensures { OnOk result (Added calls.old calls.new (calls_of_and tree.now (place_of scope.now))) }
{
    let (first, rest) = and_parts(tree);
    negation(alloc, first, scope, calls)?;
    'more: for next in rest {
        negation(alloc, next, scope, calls)?;
    }
    Ok(())
}

/// In a predicate under its NOTs.
#[cycle(calls)]
fn negation(
    alloc: Global,
    tree: &NotTree,
    scope: &Scope,
    calls: &mut Listing<Call>,
) -> Result<(), Memory>
    ensures { OnOk result (Added calls.old calls.new (calls_of_not tree.now (place_of scope.now))) }
{
    let (_, operand) = not_parts(tree);
    predicate(alloc, operand, scope, calls)
}

/// In a value and what is asked of it.
#[cycle(calls)]
fn predicate(
    alloc: Global,
    tree: &PredicateTree,
    scope: &Scope,
    calls: &mut Listing<Call>,
) -> Result<(), Memory>
    ensures { OnOk result (Added calls.old calls.new (calls_of_predicate tree.now (place_of scope.now))) }
{
    let (value, test) = predicate_parts(tree);
    comparison(alloc, value, scope, calls)?;
    asked(alloc, test, scope, calls)
}

/// In a test, whatever stands before it.
#[cycle(calls)]
fn asked(alloc: Global, test: &Test, scope: &Scope, calls: &mut Listing<Call>) -> Result<(), Memory>
    ensures { OnOk result (Added calls.old calls.new (calls_of_test test.now (place_of scope.now))) }
{
    match test {
        Test::Plain => Ok(()),
        Test::Between { low, high, .. } => {
            comparison(alloc, low, scope, calls)?;
            comparison(alloc, high, scope, calls)
        }
        Test::OneOf { list: items, .. } => list(alloc, items.as_slice(), scope, calls),
        Test::Like { pattern, .. } => comparison(alloc, pattern, scope, calls),
        Test::Is { .. } => Ok(()),
    }
}

/// In expressions in order.
#[cycle(calls)]
fn list(
    alloc: Global,
    items: &[OrTree],
    scope: &Scope,
    calls: &mut Listing<Call>,
) -> Result<(), Memory>
    ensures { OnOk result (Added calls.old calls.new (calls_of_list items.now (place_of scope.now))) }
{
    'items: for next in items {
        or(alloc, next, scope, calls)?;
    }
    Ok(())
}

/// In sums that are compared.
#[cycle(calls)]
fn comparison(
    alloc: Global,
    tree: &ComparisonTree,
    scope: &Scope,
    calls: &mut Listing<Call>,
) -> Result<(), Memory>
    ensures { OnOk result (Added calls.old calls.new (calls_of_comparison tree.now (place_of scope.now))) }
{
    let (first, rest) = comparison_parts(tree);
    sum(alloc, first, scope, calls)?;
    'more: for next in rest {
        sum(alloc, &next.1, scope, calls)?;
    }
    Ok(())
}

/// In products that are added.
#[cycle(calls)]
fn sum(
    alloc: Global,
    tree: &SumTree,
    scope: &Scope,
    calls: &mut Listing<Call>,
) -> Result<(), Memory>
    ensures { OnOk result (Added calls.old calls.new (calls_of_sum tree.now (place_of scope.now))) }
{
    let (first, rest) = sum_parts(tree);
    product(alloc, first, scope, calls)?;
    'more: for next in rest {
        product(alloc, &next.1, scope, calls)?;
    }
    Ok(())
}

/// In signed operands that are multiplied.
#[cycle(calls)]
fn product(
    alloc: Global,
    tree: &ProductTree,
    scope: &Scope,
    calls: &mut Listing<Call>,
) -> Result<(), Memory>
    ensures { OnOk result (Added calls.old calls.new (calls_of_product tree.now (place_of scope.now))) }
{
    let (first, rest) = product_parts(tree);
    sign(alloc, first, scope, calls)?;
    'more: for next in rest {
        sign(alloc, &next.1, scope, calls)?;
    }
    Ok(())
}

/// In an operand under its signs.
#[cycle(calls)]
fn sign(
    alloc: Global,
    tree: &SignTree,
    scope: &Scope,
    calls: &mut Listing<Call>,
) -> Result<(), Memory>
    ensures { OnOk result (Added calls.old calls.new (calls_of_sign tree.now (place_of scope.now))) }
{
    let (_, operand) = sign_parts(tree);
    primary(alloc, operand, scope, calls)
}

/// In an operand.
#[cycle(calls)]
fn primary(
    alloc: Global,
    tree: &PrimaryTree,
    scope: &Scope,
    calls: &mut Listing<Call>,
) -> Result<(), Memory>
    ensures { OnOk result (Added calls.old calls.new (calls_of_primary tree.now (place_of scope.now))) }
{
    match tree {
        PrimaryTree::Number { .. } => Ok(()),
        PrimaryTree::Literal(_) => Ok(()),
        PrimaryTree::Boolean(_) => Ok(()),
        PrimaryTree::Null => Ok(()),
        PrimaryTree::Column(_) => Ok(()),
        PrimaryTree::TableColumn { .. } => Ok(()),
        PrimaryTree::CountAll => count_all(calls),
        PrimaryTree::Paren(value) => or(alloc, value.get(), scope, calls),
        PrimaryTree::Cast { value, .. } => or(alloc, value.get(), scope, calls),
        PrimaryTree::Case {
            operand,
            arms: pairs,
            otherwise,
        } => {
            maybe(alloc, operand, scope, calls)?;
            arms(alloc, pairs.as_slice(), scope, calls)?;
            maybe(alloc, otherwise, scope, calls)
        }
        PrimaryTree::Call { name, arguments } => match aggregate_named(name) {
            Some(fun) => add_call(alloc, fun, arguments.as_slice(), scope, calls),
            None => list(alloc, arguments.as_slice(), scope, calls),
        },
    }
}

/// In an expression that may be left out.
#[cycle(calls)]
fn maybe(
    alloc: Global,
    tree: &Option<Boxed<OrTree>>,
    scope: &Scope,
    calls: &mut Listing<Call>,
) -> Result<(), Memory>
    ensures { OnOk result (Added calls.old calls.new (calls_if_any tree.now (place_of scope.now))) }
{
    match tree {
        Some(tree) => or(alloc, tree.get(), scope, calls),
        None => Ok(()),
    }
}

/// In the arms of a CASE.
#[cycle(calls)]
fn arms(
    alloc: Global,
    pairs: &[Arm],
    scope: &Scope,
    calls: &mut Listing<Call>,
) -> Result<(), Memory>
    ensures { OnOk result (Added calls.old calls.new (calls_of_arms pairs.now (place_of scope.now))) }
{
    'arms: for next in pairs {
        arm(alloc, next, scope, calls)?;
    }
    Ok(())
}

/// In an arm.
#[cycle(calls)]
fn arm(alloc: Global, pair: &Arm, scope: &Scope, calls: &mut Listing<Call>) -> Result<(), Memory>
    ensures { OnOk result (Added calls.old calls.new (calls_of_arm pair.now (place_of scope.now))) }
{
    let (when, gives) = arm_parts(pair);
    or(alloc, when, scope, calls)?;
    or(alloc, gives, scope, calls)
}
