//! Whether an expression is no more than a column, level by level.
//!
//! At each level it has one operand, and no operator on it.

ghost use Rattle.std.specs.Prelude.{◌≡◌};
ghost use Rattle.aqe_typing.specs.Alone.{is_column_of_or, is_column_of_and, is_column_of_not, is_column_of_predicate, is_column_of_comparison, is_column_of_sum, is_column_of_product, is_column_of_sign, is_column_of_primary};

use aqe_script::parts::{
    and_parts, comparison_parts, not_parts, or_parts, predicate_parts, product_parts, sign_parts,
    sum_parts,
};
use aqe_trees::{
    AndTree, ComparisonTree, NotTree, OrTree, PredicateTree, PrimaryTree, ProductTree, SignTree,
    SumTree, Test,
};

/// Operands of OR.
#[tactic(auto, using(crate::proofs::ColumnsAlone::columns_alone))]
#[cycle(column)]
pub(crate) fn or(tree: &OrTree) -> bool
    ensures { result ≡ is_column_of_or tree.now }
{
    let (first, rest) = or_parts(tree);
    if !rest.is_empty() {
        return false;
    }
    and(first)
}

/// Operands of AND.
#[tactic(auto, using(crate::proofs::ColumnsAlone::columns_alone))]
#[cycle(column)]
fn and(tree: &AndTree) -> bool
    ensures { result ≡ is_column_of_and tree.now }
{
    let (first, rest) = and_parts(tree);
    if !rest.is_empty() {
        return false;
    }
    negation(first)
}

/// A predicate under its NOTs.
#[tactic(auto, using(crate::proofs::ColumnsAlone::columns_alone))]
#[cycle(column)]
fn negation(tree: &NotTree) -> bool
    ensures { result ≡ is_column_of_not tree.now }
{
    let (count, operand) = not_parts(tree);
    if count > 0 {
        return false;
    }
    predicate(operand)
}

/// A value and what is asked of it.
#[tactic(auto, using(crate::proofs::ColumnsAlone::columns_alone))]
#[cycle(column)]
fn predicate(tree: &PredicateTree) -> bool
    ensures { result ≡ is_column_of_predicate tree.now }
{
    let (value, test) = predicate_parts(tree);
    match test {
        Test::Plain => comparison(value),
        Test::Between { .. } => false,
        Test::OneOf { .. } => false,
        Test::Like { .. } => false,
        Test::Is { .. } => false,
    }
}

/// Sums that are compared.
#[tactic(auto, using(crate::proofs::ColumnsAlone::columns_alone))]
#[cycle(column)]
fn comparison(tree: &ComparisonTree) -> bool
    ensures { result ≡ is_column_of_comparison tree.now }
{
    let (first, rest) = comparison_parts(tree);
    if !rest.is_empty() {
        return false;
    }
    sum(first)
}

/// Products that are added.
#[tactic(auto, using(crate::proofs::ColumnsAlone::columns_alone))]
#[cycle(column)]
fn sum(tree: &SumTree) -> bool
    ensures { result ≡ is_column_of_sum tree.now }
{
    let (first, rest) = sum_parts(tree);
    if !rest.is_empty() {
        return false;
    }
    product(first)
}

/// Signed operands that are multiplied.
#[tactic(auto, using(crate::proofs::ColumnsAlone::columns_alone))]
#[cycle(column)]
fn product(tree: &ProductTree) -> bool
    ensures { result ≡ is_column_of_product tree.now }
{
    let (first, rest) = product_parts(tree);
    if !rest.is_empty() {
        return false;
    }
    sign(first)
}

/// An operand under its signs.
#[tactic(auto, using(crate::proofs::ColumnsAlone::columns_alone))]
#[cycle(column)]
fn sign(tree: &SignTree) -> bool
    ensures { result ≡ is_column_of_sign tree.now }
{
    let (signs, operand) = sign_parts(tree);
    if !signs.is_empty() {
        return false;
    }
    primary(operand)
}

/// An operand without an operator outside of parentheses.
#[tactic(auto, using(crate::proofs::ColumnsAlone::columns_alone))]
#[cycle(column)]
fn primary(tree: &PrimaryTree) -> bool
    ensures { result ≡ is_column_of_primary tree.now }
{
    match tree {
        PrimaryTree::Column(_) => true,
        PrimaryTree::TableColumn { .. } => true,
        PrimaryTree::Paren(value) => or(value.get()),
        PrimaryTree::Number { .. } => false,
        PrimaryTree::Literal(_) => false,
        PrimaryTree::Boolean(_) => false,
        PrimaryTree::Null => false,
        PrimaryTree::Cast { .. } => false,
        PrimaryTree::Case { .. } => false,
        PrimaryTree::CountAll => false,
        PrimaryTree::Call { .. } => false,
    }
}
