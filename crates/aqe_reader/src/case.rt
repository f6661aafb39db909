//! CASE.

ghost use Rattle.std.specs.Prelude.{◌≡◌, ◌∷◌, ◌<◌, ◌≤◌, length, MatchResult};
ghost use Rattle.aqe_trees.specs.declared.terminal.Key.TheVariants as k;
ghost use Rattle.aqe_trees.specs.declared.terminal.Terminal.TheVariants.{Fixed};
ghost use Rattle.aqe_trees.specs.Expressions.{IsOr};
ghost use Rattle.aqe_reader.specs.Reading.{Read, Part, Taken, Refuses, Never, IsRefusal};
ghost use Rattle.aqe_reader.specs.Nesting.{Nests};
ghost use Rattle.aqe_reader.specs.Steps.{IsOperand, IsArm, IsBranches, IsEnding, Keyed};

use crate::ReadFault;
use crate::boxes::arm_of;
use crate::cursor::{eat, expect};
use crate::nest::{Nest, inner};
use crate::pieces::{beside, more};
use aqe_trees::{Arm, Key, OrTree, PrimaryTree, Terminal};
use sqlite_items::{Boxed, Items};

/// `[or] WHEN or THEN or {WHEN or THEN or} [ELSE or] END`, behind CASE.
pub(crate) fn case<'a, F>(
    nest: &Nest<F>,
    terminals: &'a [Terminal],
) -> Result<(PrimaryTree, &'a [Terminal]), ReadFault>
where
    F: Fn(&'a [Terminal]) -> Result<(Boxed<OrTree>, &'a [Terminal]), ReadFault>,
    requires nests { Nests F.Fn nest.now.read nest.now.room }
    requires room { length terminals.now < nest.now.room }
    ensures { MatchResult result
        (λ x. Part (Keyed k.Case) 20 terminals.now x.0 x.1.now)
        (λ e. IsRefusal e → Refuses (Keyed k.Case) 20 terminals.now) }
{
    let (operand, rest) = operand(nest, terminals)?;
    let (operand, after) = beside(operand, expect(rest, Key::When))?;
    let (operand, ((arms, otherwise), left)) = beside(operand, arms(nest, after))?;
    Ok((PrimaryTree::case(operand, arms, otherwise), left))
}

/// The operand of a CASE, where WHEN does not come first.
fn operand<'a, F>(
    nest: &Nest<F>,
    terminals: &'a [Terminal],
) -> Result<(Option<Boxed<OrTree>>, &'a [Terminal]), ReadFault>
where
    F: Fn(&'a [Terminal]) -> Result<(Boxed<OrTree>, &'a [Terminal]), ReadFault>,
    requires nests { Nests F.Fn nest.now.read nest.now.room }
    requires room { length terminals.now < nest.now.room }
    ensures { MatchResult result
        (λ x. Part IsOperand 14 terminals.now x.0 x.1.now)
        (λ e. IsRefusal e → Refuses IsOperand 14 terminals.now) }
{
    if let Some(_) = eat(terminals, Key::When) {
        return Ok((None, terminals));
    }
    let (value, left) = inner(nest, terminals)?;
    Ok((Some(value), left))
}

/// `or THEN or {WHEN or THEN or} [ELSE or] END`, behind WHEN.
fn arms<'a, F>(
    nest: &Nest<F>,
    terminals: &'a [Terminal],
) -> Result<((Items<Arm>, Option<Boxed<OrTree>>), &'a [Terminal]), ReadFault>
where
    F: Fn(&'a [Terminal]) -> Result<(Boxed<OrTree>, &'a [Terminal]), ReadFault>,
    requires nests { Nests F.Fn nest.now.read nest.now.room }
    requires room { length terminals.now < nest.now.room }
    ensures { MatchResult result
        (λ x. Taken IsBranches (Fixed k.When ∷ terminals.now) x.0 x.1.now)
        (λ e. IsRefusal e → Never IsBranches (Fixed k.When ∷ terminals.now)) }
{
    let (mut arms, mut rest) = more(Items::new(nest.alloc), branch(nest, terminals))?;
    'more: while let Some(after) = eat(rest, Key::When) {
        (arms, rest) = more(arms, branch(nest, after))?;
    }
    let (arms, (otherwise, left)) = beside(arms, ending(nest, rest))?;
    Ok(((arms, otherwise), left))
}

/// `or THEN or`, behind WHEN.
fn branch<'a, F>(
    nest: &Nest<F>,
    terminals: &'a [Terminal],
) -> Result<(Boxed<Arm>, &'a [Terminal]), ReadFault>
where
    F: Fn(&'a [Terminal]) -> Result<(Boxed<OrTree>, &'a [Terminal]), ReadFault>,
    requires nests { Nests F.Fn nest.now.read nest.now.room }
    requires room { length terminals.now < nest.now.room }
    ensures { MatchResult result
        (λ x. Read IsArm 14 terminals.now x.0 x.1.now)
        (λ e. IsRefusal e → Refuses IsArm 14 terminals.now) }
{
    let (when, rest) = inner(nest, terminals)?;
    let (when, after) = beside(when, expect(rest, Key::Then))?;
    let (when, (gives, left)) = beside(when, inner(nest, after))?;
    Ok((arm_of(nest.alloc, when, gives)?, left))
}

/// `[ELSE or] END`
fn ending<'a, F>(
    nest: &Nest<F>,
    terminals: &'a [Terminal],
) -> Result<(Option<Boxed<OrTree>>, &'a [Terminal]), ReadFault>
where
    F: Fn(&'a [Terminal]) -> Result<(Boxed<OrTree>, &'a [Terminal]), ReadFault>,
    requires nests { Nests F.Fn nest.now.read nest.now.room }
    requires room { length terminals.now < nest.now.room }
    ensures { MatchResult result
        (λ x. Taken IsEnding terminals.now x.0 x.1.now)
        (λ e. IsRefusal e → Never IsEnding terminals.now) }
{
    if let Some(left) = eat(terminals, Key::End) {
        return Ok((None, left));
    }
    let after = expect(terminals, Key::Else)?;
    let (value, rest) = inner(nest, after)?;
    let (value, left) = beside(value, expect(rest, Key::End))?;
    Ok((Some(value), left))
}
