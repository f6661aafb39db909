//! Operator chains, from OR down to the products. Each is read by a loop, however long it is.

ghost use Rattle.std.specs.Prelude.{◌≤◌, length, MatchResult};
ghost use Rattle.aqe_trees.specs.Expressions.{IsOr, IsAnd, IsComparison, IsSum, IsProduct};
ghost use Rattle.aqe_reader.specs.Reading.{Read, Refuses, IsRefusal};
ghost use Rattle.aqe_reader.specs.Nesting.{Nests};

use crate::ReadFault;
use crate::boxes::{and_of, comparison_of, or_of};
use crate::cursor::eat;
use crate::nest::Nest;
use crate::pieces::{longer, longer_by};
use crate::runs::{not, sign};
use crate::words::{compare_at, product_at, sum_at};
use aqe_trees::{AndTree, ComparisonTree, Key, OrTree, ProductTree, SumTree, Terminal};
use sqlite_items::{Boxed, Items};

/// `and {OR and}`
pub(crate) fn or<'a, F>(
    nest: &Nest<F>,
    terminals: &'a [Terminal],
) -> Result<(Boxed<OrTree>, &'a [Terminal]), ReadFault>
where
    F: Fn(&'a [Terminal]) -> Result<(Boxed<OrTree>, &'a [Terminal]), ReadFault>,
    requires nests { Nests F.Fn nest.now.read nest.now.room }
    requires room { length terminals.now ≤ nest.now.room }
    ensures { MatchResult result
        (λ x. Read IsOr 14 terminals.now x.0 x.1.now)
        (λ e. IsRefusal e → Refuses IsOr 14 terminals.now) }
{
    let (mut first, mut rest) = and(nest, terminals)?;
    let mut items = Items::new(nest.alloc);
    'more: while let Some(after) = eat(rest, Key::Or) {
        (first, items, rest) = longer(first, items, and(nest, after))?;
    }
    Ok((or_of(nest.alloc, first, items)?, rest))
}

/// `not {AND not}`
pub(crate) fn and<'a, F>(
    nest: &Nest<F>,
    terminals: &'a [Terminal],
) -> Result<(Boxed<AndTree>, &'a [Terminal]), ReadFault>
where
    F: Fn(&'a [Terminal]) -> Result<(Boxed<OrTree>, &'a [Terminal]), ReadFault>,
    requires nests { Nests F.Fn nest.now.read nest.now.room }
    requires room { length terminals.now ≤ nest.now.room }
    ensures { MatchResult result
        (λ x. Read IsAnd 15 terminals.now x.0 x.1.now)
        (λ e. IsRefusal e → Refuses IsAnd 15 terminals.now) }
{
    let (mut first, mut rest) = not(nest, terminals)?;
    let mut items = Items::new(nest.alloc);
    'more: while let Some(after) = eat(rest, Key::And) {
        (first, items, rest) = longer(first, items, not(nest, after))?;
    }
    Ok((and_of(nest.alloc, first, items)?, rest))
}

/// `sum {operator sum}`
pub(crate) fn comparison<'a, F>(
    nest: &Nest<F>,
    terminals: &'a [Terminal],
) -> Result<(Boxed<ComparisonTree>, &'a [Terminal]), ReadFault>
where
    F: Fn(&'a [Terminal]) -> Result<(Boxed<OrTree>, &'a [Terminal]), ReadFault>,
    requires nests { Nests F.Fn nest.now.read nest.now.room }
    requires room { length terminals.now ≤ nest.now.room }
    ensures { MatchResult result
        (λ x. Read IsComparison 17 terminals.now x.0 x.1.now)
        (λ e. IsRefusal e → Refuses IsComparison 17 terminals.now) }
{
    let (mut first, mut rest) = sum(nest, terminals)?;
    let mut items = Items::new(nest.alloc);
    'more: while let Some((op, after)) = compare_at(rest) {
        (first, items, rest) = longer_by(first, items, op, sum(nest, after))?;
    }
    Ok((comparison_of(nest.alloc, first, items)?, rest))
}

/// `product {(+ | -) product}`
pub(crate) fn sum<'a, F>(
    nest: &Nest<F>,
    terminals: &'a [Terminal],
) -> Result<(SumTree, &'a [Terminal]), ReadFault>
where
    F: Fn(&'a [Terminal]) -> Result<(Boxed<OrTree>, &'a [Terminal]), ReadFault>,
    requires nests { Nests F.Fn nest.now.read nest.now.room }
    requires room { length terminals.now ≤ nest.now.room }
    ensures { MatchResult result
        (λ x. Read IsSum 18 terminals.now x.0 x.1.now)
        (λ e. IsRefusal e → Refuses IsSum 18 terminals.now) }
{
    let (mut first, mut rest) = product(nest, terminals)?;
    let mut items = Items::new(nest.alloc);
    'more: while let Some((op, after)) = sum_at(rest) {
        (first, items, rest) = longer_by(first, items, op, product(nest, after))?;
    }
    Ok((SumTree::new(first, items), rest))
}

/// `sign {(* | % | DIV) sign}`
pub(crate) fn product<'a, F>(
    nest: &Nest<F>,
    terminals: &'a [Terminal],
) -> Result<(ProductTree, &'a [Terminal]), ReadFault>
where
    F: Fn(&'a [Terminal]) -> Result<(Boxed<OrTree>, &'a [Terminal]), ReadFault>,
    requires nests { Nests F.Fn nest.now.read nest.now.room }
    requires room { length terminals.now ≤ nest.now.room }
    ensures { MatchResult result
        (λ x. Read IsProduct 19 terminals.now x.0 x.1.now)
        (λ e. IsRefusal e → Refuses IsProduct 19 terminals.now) }
{
    let (mut first, mut rest) = sign(nest, terminals)?;
    let mut items = Items::new(nest.alloc);
    'more: while let Some((op, after)) = product_at(rest) {
        (first, items, rest) = longer_by(first, items, op, sign(nest, after))?;
    }
    Ok((ProductTree::new(first, items), rest))
}
