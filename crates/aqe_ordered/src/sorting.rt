//! What one expression of ORDER BY sorts by.

ghost use Rattle.std.specs.Prelude.{◌≡◌};
ghost use Rattle.aqe_rules.specs.Expressions.{read, alone_of};
ghost use Rattle.aqe_rules.specs.Plans as spec;
ghost use Rattle.aqe_rules.specs.Sources.{over};
ghost use Rattle.aqe_ordered.specs.Orders.{sorting_seen, sorting_at, sorting_by};
ghost use Rattle.aqe_sources.specs.Seen.{SaysSeen};

use crate::hiding::Hiding;
use crate::positions::at_position;
use aqe_expr::Expr;
use aqe_looks::{first_missing, number_alone};
use aqe_rules::{AnalysisFault, Named, Typed};
use aqe_trees::OrTree;
use aqe_typing::value_over;
use std::alloc::Global;

/// What a key of ORDER BY is over.
#[derive(Drop)]
pub(crate) enum Sorting {
    /// The output columns.
    Shown(Expr),
    /// A column that is there for the order alone.
    Hidden(Typed),
}

/// Whether an expression is over the output columns.
#[tactic(auto, using(crate::proofs::HidingSteps::over_steps))]
fn is_over(value: &OrTree, outputs: &[Named]) -> bool
    ensures { result ≡ spec.is_over outputs.now value.now }
{
    first_missing(value, outputs).is_none()
}

/// A position.
#[tactic(auto, using(crate::proofs::SortingSteps::sorting_steps))]
fn by_position(
    alloc: Global,
    negative: bool,
    n: u64,
    outputs: &[Named],
) -> Result<Sorting, AnalysisFault>
    ensures { SaysSeen sorting_seen result (sorting_at negative n outputs.now) }
{
    let expr = at_position(alloc, negative, n, outputs)?;
    Ok(Sorting::Shown(expr))
}

/// An expression over the output columns.
#[tactic(auto, using(crate::proofs::SortingSteps::sorting_steps))]
fn shown(alloc: Global, value: &OrTree, outputs: &[Named]) -> Result<Sorting, AnalysisFault>
    ensures { SaysSeen sorting_seen result (spec.shown_value (read value.now (over outputs.now)).value) }
{
    let value = value_over(alloc, value, outputs)?;
    Ok(Sorting::Shown(value.expr))
}

/// An expression that is not over the output columns alone.
#[tactic(auto, using(crate::proofs::SortingSteps::sorting_steps))]
fn hidden<H: Hiding>(alloc: Global, hiding: &H, value: &OrTree) -> Result<Sorting, AnalysisFault>
    ensures { SaysSeen sorting_seen result (spec.hidden_value (H.rule hiding.now value.now)) }
{
    let value = hiding.hidden(alloc, value)?;
    Ok(Sorting::Hidden(value))
}

/// An expression that is no number alone.
#[tactic(auto, using(crate::proofs::SortingSteps::sorting_steps))]
fn by_value<H: Hiding>(
    alloc: Global,
    hiding: &H,
    value: &OrTree,
    outputs: &[Named],
) -> Result<Sorting, AnalysisFault>
    ensures { SaysSeen sorting_seen result (sorting_by (H.rule hiding.now) outputs.now value.now) }
{
    if is_over(value, outputs) {
        shown(alloc, value, outputs)
    } else {
        hidden(alloc, hiding, value)
    }
}

/// What an expression of ORDER BY sorts by.
#[tactic(auto, using(crate::proofs::SortingSteps::sorting_steps))]
pub(crate) fn sorting_of<H: Hiding>(
    alloc: Global,
    hiding: &H,
    value: &OrTree,
    outputs: &[Named],
) -> Result<Sorting, AnalysisFault>
    ensures { SaysSeen sorting_seen result (spec.sorting (H.rule hiding.now) outputs.now value.now (alone_of value.now)) }
{
    match number_alone(value) {
        Some((negative, n)) => by_position(alloc, negative, n, outputs),
        None => by_value(alloc, hiding, value, outputs),
    }
}
