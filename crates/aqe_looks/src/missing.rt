//! The first thing that an expression mentions and that no output column shows.
//!
//! Each function here answers for its part of a tree, and looks no further than the first that is not shown.

ghost use Rattle.std.specs.Prelude.{◌≡◌, [], ◌∷◌};
ghost use Rattle.std.specs.List.{list_any};
ghost use Rattle.aqe_rules.specs.Readings.{bears};
ghost use Rattle.aqe_rules.specs.Looks as looks;
ghost use Rattle.aqe_rules.specs.Expressions.{mentions_of};
ghost use Rattle.aqe_looks.specs.Missing.{first_missing, seen, missing_in, missing_of_or, missing_of_and, missing_of_not, missing_of_predicate, missing_of_test, missing_of_comparison, missing_of_sum, missing_of_product, missing_of_sign, missing_of_primary, missing_of_arm, missing_if_any};

use crate::aggregates::is_aggregate;
use aqe_rules::{Named, alike};
use aqe_script::parts::{
    and_parts, arm_parts, comparison_parts, not_parts, or_parts, predicate_parts, product_parts,
    sign_parts, sum_parts,
};
use aqe_trees::{
    AndTree, Arm, ComparisonTree, NotTree, OrTree, PredicateTree, PrimaryTree, ProductTree,
    SignTree, SumTree, Test,
};
use aqe_values::Text;
use sqlite_items::Boxed;

/// What an expression mentions.
#[derive(Drop)]
pub enum Mention<'a> {
    /// A name.
    Plain(&'a Text),
    /// The name of an item, and that of a column of it.
    OfItem(&'a Text, &'a Text),
    /// The name of an aggregate function that is called, as it was written.
    Aggregate(&'a str),
}

/// Whether one of the columns has the name.
fn has_column(name: &Text, columns: &[Named]) -> bool
    ensures { result ≡ list_any (bears name.now) columns.now }
{
    columns.iter().any(|column| alike(&column.name, name))
}

/// The first thing that the expression mentions and that these output columns do not show: a name that none of them has, a
/// name with that of an item, or an aggregate call.
pub fn first_missing<'a>(tree: &'a OrTree, columns: &[Named]) -> Option<Mention<'a>>
    ensures { seen result ≡ first_missing columns.now (mentions_of tree.now) }
{
    or(tree, columns)
}

/// In operands of OR.
#[tactic(auto, using(crate::proofs::MissingLevels::loops))]
#[cycle(missing)]
fn or<'a>(tree: &'a OrTree, columns: &[Named]) -> Option<Mention<'a>>
    ensures { seen result ≡ missing_of_or columns.now tree.now }
{
    let (first, rest) = or_parts(tree);
    if let Some(found) = and(first, columns) {
        return Some(found);
    }
    'more: for next in rest {
        if let Some(found) = and(next, columns) {
            return Some(found);
        }
    }
    None
}

/// In operands of AND.
#[tactic(auto, using(crate::proofs::MissingLevels::loops))]
#[cycle(missing)]
fn and<'a>(tree: &'a AndTree, columns: &[Named]) -> Option<Mention<'a>>
    ensures { seen result ≡ missing_of_and columns.now tree.now }
{
    let (first, rest) = and_parts(tree);
    if let Some(found) = negation(first, columns) {
        return Some(found);
    }
    'more: for next in rest {
        if let Some(found) = negation(next, columns) {
            return Some(found);
        }
    }
    None
}

/// In a predicate under its NOTs.
#[tactic(auto, using(crate::proofs::MissingLevels::tests))]
#[cycle(missing)]
fn negation<'a>(tree: &'a NotTree, columns: &[Named]) -> Option<Mention<'a>>
    ensures { seen result ≡ missing_of_not columns.now tree.now }
{
    let (_, operand) = not_parts(tree);
    predicate(operand, columns)
}

/// In a value and what is asked of it.
#[tactic(auto, using(crate::proofs::MissingLevels::tests))]
#[cycle(missing)]
fn predicate<'a>(tree: &'a PredicateTree, columns: &[Named]) -> Option<Mention<'a>>
    ensures { seen result ≡ missing_of_predicate columns.now tree.now }
{
    let (value, test) = predicate_parts(tree);
    if let Some(found) = comparison(value, columns) {
        return Some(found);
    }
    asked(test, columns)
}

/// In a test, whatever stands before it.
#[tactic(auto, using(crate::proofs::MissingLevels::tests))]
#[cycle(missing)]
fn asked<'a>(test: &'a Test, columns: &[Named]) -> Option<Mention<'a>>
    ensures { seen result ≡ missing_of_test columns.now test.now }
{
    match test {
        Test::Plain => None,
        Test::Between { low, high, .. } => {
            if let Some(found) = comparison(low, columns) {
                return Some(found);
            }
            comparison(high, columns)
        }
        Test::OneOf { list: items, .. } => list(items.as_slice(), columns),
        Test::Like { pattern, .. } => comparison(pattern, columns),
        Test::Is { .. } => None,
    }
}

/// In one of some expressions.
#[tactic(auto, using(crate::proofs::MissingLevels::loops))]
#[cycle(missing)]
fn list<'a>(items: &'a [OrTree], columns: &[Named]) -> Option<Mention<'a>>
    ensures { seen result ≡ missing_in (missing_of_or columns.now) items.now }
{
    'items: for next in items {
        if let Some(found) = or(next, columns) {
            return Some(found);
        }
    }
    None
}

/// In sums that are compared.
#[tactic(auto, using(crate::proofs::MissingLevels::loops))]
#[cycle(missing)]
fn comparison<'a>(tree: &'a ComparisonTree, columns: &[Named]) -> Option<Mention<'a>>
    ensures { seen result ≡ missing_of_comparison columns.now tree.now }
{
    let (first, rest) = comparison_parts(tree);
    if let Some(found) = sum(first, columns) {
        return Some(found);
    }
    'more: for next in rest {
        if let Some(found) = sum(&next.1, columns) {
            return Some(found);
        }
    }
    None
}

/// In products that are added.
#[tactic(auto, using(crate::proofs::MissingLevels::loops))]
#[cycle(missing)]
fn sum<'a>(tree: &'a SumTree, columns: &[Named]) -> Option<Mention<'a>>
    ensures { seen result ≡ missing_of_sum columns.now tree.now }
{
    let (first, rest) = sum_parts(tree);
    if let Some(found) = product(first, columns) {
        return Some(found);
    }
    'more: for next in rest {
        if let Some(found) = product(&next.1, columns) {
            return Some(found);
        }
    }
    None
}

/// In signed operands that are multiplied.
#[tactic(auto, using(crate::proofs::MissingLevels::loops))]
#[cycle(missing)]
fn product<'a>(tree: &'a ProductTree, columns: &[Named]) -> Option<Mention<'a>>
    ensures { seen result ≡ missing_of_product columns.now tree.now }
{
    let (first, rest) = product_parts(tree);
    if let Some(found) = sign(first, columns) {
        return Some(found);
    }
    'more: for next in rest {
        if let Some(found) = sign(&next.1, columns) {
            return Some(found);
        }
    }
    None
}

/// In an operand under its signs.
#[tactic(auto, using(crate::proofs::MissingLevels::tests))]
#[cycle(missing)]
fn sign<'a>(tree: &'a SignTree, columns: &[Named]) -> Option<Mention<'a>>
    ensures { seen result ≡ missing_of_sign columns.now tree.now }
{
    let (_, operand) = sign_parts(tree);
    primary(operand, columns)
}

/// A name, where no column has it.
fn plain<'a>(name: &'a Text, columns: &[Named]) -> Option<Mention<'a>>
    ensures { seen result ≡ first_missing columns.now (looks.plain name.now ∷ []) }
{
    if has_column(name, columns) {
        None
    } else {
        Some(Mention::Plain(name))
    }
}

/// In an operand.
#[tactic(auto, using(crate::proofs::MissingLevels::operands))]
#[cycle(missing)]
fn primary<'a>(tree: &'a PrimaryTree, columns: &[Named]) -> Option<Mention<'a>>
    ensures { seen result ≡ missing_of_primary columns.now tree.now }
{
    match tree {
        PrimaryTree::Number { .. } => None,
        PrimaryTree::Literal(_) => None,
        PrimaryTree::Boolean(_) => None,
        PrimaryTree::Null => None,
        PrimaryTree::Column(name) => plain(name, columns),
        PrimaryTree::TableColumn { table, name } => Some(Mention::OfItem(table, name)),
        PrimaryTree::CountAll => Some(Mention::Aggregate("count")),
        PrimaryTree::Paren(value) => or(value.get(), columns),
        PrimaryTree::Cast { value, .. } => or(value.get(), columns),
        PrimaryTree::Case {
            operand,
            arms: pairs,
            otherwise,
        } => {
            if let Some(found) = maybe(operand, columns) {
                return Some(found);
            }
            if let Some(found) = arms(pairs.as_slice(), columns) {
                return Some(found);
            }
            maybe(otherwise, columns)
        }
        PrimaryTree::Call { name, arguments } => {
            if is_aggregate(name) {
                return Some(Mention::Aggregate(name.as_str()));
            }
            list(arguments.as_slice(), columns)
        }
    }
}

/// In an expression that may be left out.
#[cycle(missing)]
fn maybe<'a>(value: &'a Option<Boxed<OrTree>>, columns: &[Named]) -> Option<Mention<'a>>
    ensures { seen result ≡ missing_if_any columns.now value.now }
{
    match value {
        Some(value) => or(value.get(), columns),
        None => None,
    }
}

/// In one of the arms of a CASE.
#[tactic(auto, using(crate::proofs::MissingLevels::loops))]
#[cycle(missing)]
fn arms<'a>(pairs: &'a [Arm], columns: &[Named]) -> Option<Mention<'a>>
    ensures { seen result ≡ missing_in (missing_of_arm columns.now) pairs.now }
{
    'arms: for next in pairs {
        if let Some(found) = arm(next, columns) {
            return Some(found);
        }
    }
    None
}

/// In an arm.
#[tactic(auto, using(crate::proofs::MissingLevels::tests))]
#[cycle(missing)]
fn arm<'a>(pair: &'a Arm, columns: &[Named]) -> Option<Mention<'a>>
    ensures { seen result ≡ missing_of_arm columns.now pair.now }
{
    let (when, gives) = arm_parts(pair);
    if let Some(found) = or(when, columns) {
        return Some(found);
    }
    or(gives, columns)
}
