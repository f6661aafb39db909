//! A predicate: a value and what is asked of it.

ghost use Rattle.std.specs.Prelude.{◌≡◌, ◌≤◌, length, false, MatchResult};
ghost use Rattle.aqe_trees.specs.declared.terminal.Key.TheVariants as k;
ghost use Rattle.aqe_trees.specs.Expressions.{IsOr, IsPredicate, IsTest};
ghost use Rattle.aqe_reader.specs.Reading.{Read, Part, Refuses, IsRefusal};
ghost use Rattle.aqe_reader.specs.Nesting.{Nests};
ghost use Rattle.aqe_reader.specs.Steps.{Told, Asked};

use crate::ReadFault;
use crate::boxes::{between_of, like_of, one_of_list, predicate_of};
use crate::chains::comparison;
use crate::cursor::{eat, expect};
use crate::list::list;
use crate::nest::Nest;
use crate::pieces::beside;
use crate::words::truth_at;
use aqe_trees::{Key, OrTree, PredicateTree, Terminal, Test};
use sqlite_items::Boxed;
use std::alloc::Global;

/// `comparison [test]`
pub(crate) fn predicate<'a, F>(
    nest: &Nest<F>,
    terminals: &'a [Terminal],
) -> Result<(Boxed<PredicateTree>, &'a [Terminal]), ReadFault>
where
    F: Fn(&'a [Terminal]) -> Result<(Boxed<OrTree>, &'a [Terminal]), ReadFault>,
    requires nests { Nests F.Fn nest.now.read nest.now.room }
    requires room { length terminals.now ≤ nest.now.room }
    ensures { MatchResult result
        (λ x. Read IsPredicate 16 terminals.now x.0 x.1.now)
        (λ e. IsRefusal e → Refuses IsPredicate 16 terminals.now) }
{
    let (value, rest) = comparison(nest, terminals)?;
    let (value, (test, left)) = beside(value, test(nest, rest))?;
    Ok((predicate_of(nest.alloc, value, test)?, left))
}

/// Whether NOT comes first, and what stands behind it.
fn negation(terminals: &[Terminal]) -> (bool, &[Terminal])
    ensures { Told terminals.now result.0 result.1.now }
{
    match eat(terminals, Key::Not) {
        Some(rest) => (true, rest),
        None => (false, terminals),
    }
}

/// What is asked of a value, which may be nothing.
fn test<'a, F>(
    nest: &Nest<F>,
    terminals: &'a [Terminal],
) -> Result<(Boxed<Test>, &'a [Terminal]), ReadFault>
where
    F: Fn(&'a [Terminal]) -> Result<(Boxed<OrTree>, &'a [Terminal]), ReadFault>,
    requires nests { Nests F.Fn nest.now.read nest.now.room }
    requires room { length terminals.now ≤ nest.now.room }
    ensures { MatchResult result
        (λ x. Part IsTest 16 terminals.now x.0 x.1.now)
        (λ e. IsRefusal e → Refuses IsTest 16 terminals.now) }
{
    let (negated, rest) = negation(terminals);
    if let Some(after) = eat(rest, Key::Between) {
        return between(nest, negated, after);
    }
    if let Some(after) = eat(rest, Key::In) {
        return one_of(nest, negated, after);
    }
    if let Some(after) = eat(rest, Key::Like) {
        return like(nest, negated, after);
    }
    if negated {
        return Err(ReadFault::at(rest));
    }
    match eat(terminals, Key::Is) {
        Some(after) => is(nest.alloc, after),
        None => Ok((Boxed::new(nest.alloc, Test::Plain)?, terminals)),
    }
}

/// `low AND high`, behind BETWEEN.
fn between<'a, F>(
    nest: &Nest<F>,
    negated: bool,
    terminals: &'a [Terminal],
) -> Result<(Boxed<Test>, &'a [Terminal]), ReadFault>
where
    F: Fn(&'a [Terminal]) -> Result<(Boxed<OrTree>, &'a [Terminal]), ReadFault>,
    requires nests { Nests F.Fn nest.now.read nest.now.room }
    requires room { length terminals.now ≤ nest.now.room }
    ensures { MatchResult result
        (λ x. Read (Asked negated k.Between) 16 terminals.now x.0 x.1.now)
        (λ e. IsRefusal e → Refuses (Asked negated k.Between) 16 terminals.now) }
{
    let (low, rest) = comparison(nest, terminals)?;
    let (low, after) = beside(low, expect(rest, Key::And))?;
    let (low, (high, left)) = beside(low, comparison(nest, after))?;
    Ok((between_of(nest.alloc, negated, low, high)?, left))
}

/// `( or {, or} )`, behind IN.
fn one_of<'a, F>(
    nest: &Nest<F>,
    negated: bool,
    terminals: &'a [Terminal],
) -> Result<(Boxed<Test>, &'a [Terminal]), ReadFault>
where
    F: Fn(&'a [Terminal]) -> Result<(Boxed<OrTree>, &'a [Terminal]), ReadFault>,
    requires nests { Nests F.Fn nest.now.read nest.now.room }
    requires room { length terminals.now ≤ nest.now.room }
    ensures { MatchResult result
        (λ x. Read (Asked negated k.In) 16 terminals.now x.0 x.1.now)
        (λ e. IsRefusal e → Refuses (Asked negated k.In) 16 terminals.now) }
{
    let inside = expect(terminals, Key::Open)?;
    let (items, rest) = list(nest, inside)?;
    let (items, left) = beside(items, expect(rest, Key::Close))?;
    Ok((one_of_list(nest.alloc, negated, items)?, left))
}

/// The pattern, behind LIKE.
fn like<'a, F>(
    nest: &Nest<F>,
    negated: bool,
    terminals: &'a [Terminal],
) -> Result<(Boxed<Test>, &'a [Terminal]), ReadFault>
where
    F: Fn(&'a [Terminal]) -> Result<(Boxed<OrTree>, &'a [Terminal]), ReadFault>,
    requires nests { Nests F.Fn nest.now.read nest.now.room }
    requires room { length terminals.now ≤ nest.now.room }
    ensures { MatchResult result
        (λ x. Read (Asked negated k.Like) 16 terminals.now x.0 x.1.now)
        (λ e. IsRefusal e → Refuses (Asked negated k.Like) 16 terminals.now) }
{
    let (pattern, left) = comparison(nest, terminals)?;
    Ok((like_of(nest.alloc, negated, pattern)?, left))
}

/// `[NOT] (NULL | TRUE | FALSE)`, behind IS.
fn is(alloc: Global, terminals: &[Terminal]) -> Result<(Boxed<Test>, &[Terminal]), ReadFault>
    ensures { MatchResult result
        (λ x. Read (Asked false k.Is) 16 terminals.now x.0 x.1.now)
        (λ e. IsRefusal e → Refuses (Asked false k.Is) 16 terminals.now) }
{
    let (negated, rest) = negation(terminals);
    match truth_at(rest) {
        Some((truth, left)) => Ok((Boxed::new(alloc, Test::Is { negated, truth })?, left)),
        None => Err(ReadFault::at(rest)),
    }
}
