//! Whether an expression calls an aggregate function.
//!
//! Each function here answers for its part of a tree, and looks no further than the first call.

ghost use Rattle.std.specs.Prelude.{◌≡◌, ◌||◌, false, map, option_map};
ghost use Rattle.std.specs.List.{list_any};
ghost use Rattle.std.specs.Option.{is_some};
ghost use Rattle.aqe_rules.specs.Expressions as spec;
ghost use Rattle.aqe_rules.specs.Looks.{aggregates, called_if_any};
ghost use Rattle.aqe_rules.specs.Readings.{aggregate_named};
ghost use Rattle.aqe_rules.specs.Trees.{made_of_and, made_of_not, made_of_predicate, made_of_test, made_of_comparison, made_of_sum, made_of_product, made_of_sign, made_of_primary, made_of_arm};

use aqe_script::parts::{
    and_parts, arm_parts, comparison_parts, not_parts, or_parts, predicate_parts, product_parts,
    sign_parts, sum_parts,
};
use aqe_trees::{
    AndTree, Arm, ComparisonTree, NotTree, OrTree, PredicateTree, PrimaryTree, ProductTree,
    SignTree, SumTree, Test,
};
use aqe_values::Text;
use sqlite_items::Boxed;

/// Whether the name is that of an aggregate function, where ASCII case does not count.
pub(crate) fn is_aggregate(name: &Text) -> bool
    ensures { result ≡ is_some (aggregate_named name.now) }
{
    let name = name.as_str();
    if name.eq_ignore_ascii_case("count") {
        return true;
    }
    if name.eq_ignore_ascii_case("sum") {
        return true;
    }
    if name.eq_ignore_ascii_case("min") {
        return true;
    }
    name.eq_ignore_ascii_case("max")
}

/// Whether an aggregate function is called in the expression, however deep.
#[cycle(expression)]
pub fn has_aggregate(tree: &OrTree) -> bool
    ensures { result ≡ spec.has_aggregate tree.now }
{
    let (first, rest) = or_parts(tree);
    if and(first) {
        return true;
    }
    'more: for next in rest {
        if and(next) {
            return true;
        }
    }
    false
}

/// In operands of AND.
#[cycle(expression)]
fn and(tree: &AndTree) -> bool
    ensures { result ≡ made_of_and aggregates tree.now }
{
    let (first, rest) = and_parts(tree);
    if negation(first) {
        return true;
    }
    'more: for next in rest {
        if negation(next) {
            return true;
        }
    }
    false
}

/// In a predicate under its NOTs.
#[cycle(expression)]
fn negation(tree: &NotTree) -> bool
    ensures { result ≡ made_of_not aggregates tree.now }
{
    let (_, operand) = not_parts(tree);
    predicate(operand)
}

/// In a value and what is asked of it.
#[cycle(expression)]
fn predicate(tree: &PredicateTree) -> bool
    ensures { result ≡ made_of_predicate aggregates tree.now }
{
    let (value, test) = predicate_parts(tree);
    if comparison(value) {
        return true;
    }
    asked(test)
}

/// In a test, whatever stands before it.
#[cycle(expression)]
fn asked(test: &Test) -> bool
    ensures { result ≡ made_of_test aggregates test.now false }
{
    match test {
        Test::Plain => false,
        Test::Between { low, high, .. } => {
            if comparison(low) {
                return true;
            }
            comparison(high)
        }
        Test::OneOf { list: items, .. } => list(items.as_slice()),
        Test::Like { pattern, .. } => comparison(pattern),
        Test::Is { .. } => false,
    }
}

/// In one of some expressions.
#[cycle(expression)]
fn list(items: &[OrTree]) -> bool
    ensures { result ≡ list_any spec.has_aggregate items.now }
{
    'items: for next in items {
        if has_aggregate(next) {
            return true;
        }
    }
    false
}

/// In sums that are compared.
#[cycle(expression)]
fn comparison(tree: &ComparisonTree) -> bool
    ensures { result ≡ made_of_comparison aggregates tree.now }
{
    let (first, rest) = comparison_parts(tree);
    if sum(first) {
        return true;
    }
    'more: for next in rest {
        if sum(&next.1) {
            return true;
        }
    }
    false
}

/// In products that are added.
#[cycle(expression)]
fn sum(tree: &SumTree) -> bool
    ensures { result ≡ made_of_sum aggregates tree.now }
{
    let (first, rest) = sum_parts(tree);
    if product(first) {
        return true;
    }
    'more: for next in rest {
        if product(&next.1) {
            return true;
        }
    }
    false
}

/// In signed operands that are multiplied.
#[cycle(expression)]
fn product(tree: &ProductTree) -> bool
    ensures { result ≡ made_of_product aggregates tree.now }
{
    let (first, rest) = product_parts(tree);
    if sign(first) {
        return true;
    }
    'more: for next in rest {
        if sign(&next.1) {
            return true;
        }
    }
    false
}

/// In an operand under its signs.
#[cycle(expression)]
fn sign(tree: &SignTree) -> bool
    ensures { result ≡ made_of_sign aggregates tree.now }
{
    let (_, operand) = sign_parts(tree);
    primary(operand)
}

/// In an operand.
#[cycle(expression)]
fn primary(tree: &PrimaryTree) -> bool
    ensures { result ≡ made_of_primary aggregates tree.now }
{
    match tree {
        PrimaryTree::Number { .. } => false,
        PrimaryTree::Literal(_) => false,
        PrimaryTree::Boolean(_) => false,
        PrimaryTree::Null => false,
        PrimaryTree::Column(_) => false,
        PrimaryTree::TableColumn { .. } => false,
        PrimaryTree::CountAll => true,
        PrimaryTree::Paren(value) => has_aggregate(value.get()),
        PrimaryTree::Cast { value, .. } => has_aggregate(value.get()),
        PrimaryTree::Case {
            operand,
            arms: pairs,
            otherwise,
        } => {
            if maybe(operand) {
                return true;
            }
            if arms(pairs.as_slice()) {
                return true;
            }
            maybe(otherwise)
        }
        PrimaryTree::Call { name, arguments } => {
            if is_aggregate(name) {
                return true;
            }
            list(arguments.as_slice())
        }
    }
}

/// In an expression that may be missing.
#[cycle(expression)]
fn maybe(value: &Option<Boxed<OrTree>>) -> bool
    ensures { result ≡ called_if_any (option_map spec.has_aggregate value.now) }
{
    match value {
        Some(value) => has_aggregate(value.get()),
        None => false,
    }
}

/// In one of the arms of a CASE.
#[cycle(expression)]
fn arms(pairs: &[Arm]) -> bool
    ensures { result ≡ list_any (λ arm. arm.0 || arm.1) (map (made_of_arm aggregates) pairs.now) }
{
    'arms: for next in pairs {
        if arm(next) {
            return true;
        }
    }
    false
}

/// In an arm.
#[cycle(expression)]
fn arm(pair: &Arm) -> bool
    ensures { result ≡ ((made_of_arm aggregates pair.now).0 || (made_of_arm aggregates pair.now).1) }
{
    let (when, gives) = arm_parts(pair);
    if has_aggregate(when) {
        return true;
    }
    has_aggregate(gives)
}
