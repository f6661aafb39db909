//! Runs of NOT and of signs. Each is read by a loop, however long it is.

ghost use Rattle.std.specs.Prelude.{◌≡◌, ◌∷◌, ◌≤◌, length, None, MatchResult};
ghost use Rattle.aqe_trees.specs.declared.terminal.Key.TheVariants as k;
ghost use Rattle.aqe_trees.specs.declared.terminal.Terminal.TheVariants.{Fixed};
ghost use Rattle.aqe_trees.specs.Expressions.{IsOr, IsNot, IsSign};
ghost use Rattle.aqe_trees.specs.Words.{sign_at};
ghost use Rattle.aqe_reader.specs.Reading.{Read, Refuses, IsRefusal};
ghost use Rattle.aqe_reader.specs.Nesting.{Nests};
ghost use Rattle.aqe_reader.specs.Steps.{NotsLeft, SignsLeft};

use crate::ReadFault;
use crate::boxes::not_of;
use crate::cursor::eat;
use crate::nest::Nest;
use crate::pieces::beside;
use crate::predicate::predicate;
use crate::primary::primary;
use crate::words::sign_at;
use aqe_trees::{Key, NotTree, OrTree, Sign, SignTree, Terminal};
use sqlite_items::{Boxed, Items};
use std::alloc::Global;

/// How many NOTs come first, and what stands behind them.
fn nots(terminals: &[Terminal]) -> (u64, &[Terminal])
    ensures left { NotsLeft terminals.now result.1.now result.0 }
    ensures all { (us : _) → result.1.now ≡ Fixed k.Not ∷ us → ⊥ }
{
    let mut count = 0;
    let mut rest = terminals;
    'more: while let Some(after) = eat(rest, Key::Not) {
        count += 1;
        rest = after;
    }
    (count, rest)
}

/// `{NOT} predicate`
pub(crate) fn not<'a, F>(
    nest: &Nest<F>,
    terminals: &'a [Terminal],
) -> Result<(Boxed<NotTree>, &'a [Terminal]), ReadFault>
where
    F: Fn(&'a [Terminal]) -> Result<(Boxed<OrTree>, &'a [Terminal]), ReadFault>,
    requires nests { Nests F.Fn nest.now.read nest.now.room }
    requires room { length terminals.now ≤ nest.now.room }
    ensures { MatchResult result
        (λ x. Read IsNot 16 terminals.now x.0 x.1.now)
        (λ e. IsRefusal e → Refuses IsNot 16 terminals.now) }
{
    let (count, rest) = nots(terminals);
    let (operand, left) = predicate(nest, rest)?;
    Ok((not_of(nest.alloc, count, operand)?, left))
}

/// The signs that come first, and what stands behind them.
fn signs(alloc: Global, terminals: &[Terminal]) -> Result<(Items<Sign>, &[Terminal]), ReadFault>
    ensures { MatchResult result
        (λ x. SignsLeft terminals.now x.1.now x.0 × (sign_at x.1.now ≡ None))
        (λ e. IsRefusal e → ⊥) }
{
    let mut signs = Items::new(alloc);
    let mut rest = terminals;
    'more: while let Some((sign, after)) = sign_at(rest) {
        signs.push(sign)?;
        rest = after;
    }
    Ok((signs, rest))
}

/// `{- | +} primary`
pub(crate) fn sign<'a, F>(
    nest: &Nest<F>,
    terminals: &'a [Terminal],
) -> Result<(SignTree, &'a [Terminal]), ReadFault>
where
    F: Fn(&'a [Terminal]) -> Result<(Boxed<OrTree>, &'a [Terminal]), ReadFault>,
    requires nests { Nests F.Fn nest.now.read nest.now.room }
    requires room { length terminals.now ≤ nest.now.room }
    ensures { MatchResult result
        (λ x. Read IsSign 20 terminals.now x.0 x.1.now)
        (λ e. IsRefusal e → Refuses IsSign 20 terminals.now) }
{
    let (signs, rest) = signs(nest.alloc, terminals)?;
    let (signs, (operand, left)) = beside(signs, primary(nest, rest))?;
    Ok((SignTree::new(signs, operand), left))
}
