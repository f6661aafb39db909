//! The number that an expression is, where it is no more than one, level by level.
//!
//! At each level it has one operand, and no operator on it.

ghost use Rattle.std.specs.Prelude.{◌≡◌};
ghost use Rattle.aqe_rules.specs.Expressions.{alone_of};
ghost use Rattle.aqe_looks.specs.Numbers.{number_of, number_of_or, number_of_and, number_of_not, number_of_predicate, number_of_comparison, number_of_sum, number_of_product, number_of_sign, number_of_primary};

use aqe_script::parts::{
    and_parts, comparison_parts, not_parts, or_parts, predicate_parts, product_parts, sign_parts,
    sum_parts,
};
use aqe_trees::{
    AndTree, ComparisonTree, NotTree, OrTree, PredicateTree, PrimaryTree, ProductTree, SignTree,
    SumTree, Test,
};

/// Operands of OR.
#[tactic(auto, using(crate::proofs::NumbersAlone::numbers_alone))]
#[cycle(number)]
fn or(tree: &OrTree) -> Option<(bool, u64)>
    ensures { result ≡ number_of_or tree.now }
{
    let (first, rest) = or_parts(tree);
    if !rest.is_empty() {
        return None;
    }
    and(first)
}

/// Operands of AND.
#[tactic(auto, using(crate::proofs::NumbersAlone::numbers_alone))]
#[cycle(number)]
fn and(tree: &AndTree) -> Option<(bool, u64)>
    ensures { result ≡ number_of_and tree.now }
{
    let (first, rest) = and_parts(tree);
    if !rest.is_empty() {
        return None;
    }
    negation(first)
}

/// A predicate under its NOTs.
#[tactic(auto, using(crate::proofs::NumbersAlone::numbers_alone))]
#[cycle(number)]
fn negation(tree: &NotTree) -> Option<(bool, u64)>
    ensures { result ≡ number_of_not tree.now }
{
    let (count, operand) = not_parts(tree);
    if count > 0 {
        return None;
    }
    predicate(operand)
}

/// A value and what is asked of it.
#[tactic(auto, using(crate::proofs::NumbersAlone::numbers_alone))]
#[cycle(number)]
fn predicate(tree: &PredicateTree) -> Option<(bool, u64)>
    ensures { result ≡ number_of_predicate tree.now }
{
    let (value, test) = predicate_parts(tree);
    match test {
        Test::Plain => comparison(value),
        Test::Between { .. } => None,
        Test::OneOf { .. } => None,
        Test::Like { .. } => None,
        Test::Is { .. } => None,
    }
}

/// Sums that are compared.
#[tactic(auto, using(crate::proofs::NumbersAlone::numbers_alone))]
#[cycle(number)]
fn comparison(tree: &ComparisonTree) -> Option<(bool, u64)>
    ensures { result ≡ number_of_comparison tree.now }
{
    let (first, rest) = comparison_parts(tree);
    if !rest.is_empty() {
        return None;
    }
    sum(first)
}

/// Products that are added.
#[tactic(auto, using(crate::proofs::NumbersAlone::numbers_alone))]
#[cycle(number)]
fn sum(tree: &SumTree) -> Option<(bool, u64)>
    ensures { result ≡ number_of_sum tree.now }
{
    let (first, rest) = sum_parts(tree);
    if !rest.is_empty() {
        return None;
    }
    product(first)
}

/// Signed operands that are multiplied.
#[tactic(auto, using(crate::proofs::NumbersAlone::numbers_alone))]
#[cycle(number)]
fn product(tree: &ProductTree) -> Option<(bool, u64)>
    ensures { result ≡ number_of_product tree.now }
{
    let (first, rest) = product_parts(tree);
    if !rest.is_empty() {
        return None;
    }
    sign(first)
}

/// An operand under its signs.
#[tactic(auto, using(crate::proofs::NumbersAlone::numbers_alone))]
#[cycle(number)]
fn sign(tree: &SignTree) -> Option<(bool, u64)>
    ensures { result ≡ number_of_sign tree.now }
{
    let (signs, operand) = sign_parts(tree);
    if !signs.is_empty() {
        return None;
    }
    primary(operand)
}

/// An operand without an operator outside of parentheses.
#[tactic(auto, using(crate::proofs::NumbersAlone::numbers_alone))]
#[cycle(number)]
fn primary(tree: &PrimaryTree) -> Option<(bool, u64)>
    ensures { result ≡ number_of_primary tree.now }
{
    match tree {
        PrimaryTree::Column(_) => None,
        PrimaryTree::TableColumn { .. } => None,
        PrimaryTree::Paren(value) => or(value.get()),
        PrimaryTree::Number {
            negative,
            value,
            ..
        } => Some((*negative, *value)),
        PrimaryTree::Literal(_) => None,
        PrimaryTree::Boolean(_) => None,
        PrimaryTree::Null => None,
        PrimaryTree::Cast { .. } => None,
        PrimaryTree::Case { .. } => None,
        PrimaryTree::CountAll => None,
        PrimaryTree::Call { .. } => None,
    }
}

/// The number that the expression is, where it is no more than one: whether it is negative, and its digits' value.
///
/// Parentheses do not count, a sign in front of the number does: `-1` is a number where the sign was read with its digits.
pub fn number_alone(tree: &OrTree) -> Option<(bool, u64)>
    ensures { result ≡ number_of (alone_of tree.now) }
{
    or(tree)
}
