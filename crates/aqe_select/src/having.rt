//! The condition of HAVING.

ghost use Rattle.std.specs.Prelude.{◌≡◌};
ghost use Rattle.aqe_rules.specs.Faults.{Says};
ghost use Rattle.aqe_rules.specs.Selects.{having_condition};
ghost use Rattle.aqe_rules.specs.Sources as sources;
ghost use Rattle.aqe_typing.specs.Places.{place_seen};
ghost use Rattle.aqe_outputs.specs.Building.{built_by};
ghost use Rattle.aqe_select.specs.Reading.{having_of};

use aqe_expr::Expr;
use aqe_outputs::Building;
use aqe_rules::{AnalysisFault, Typed, is_truth, mismatch};
use aqe_trees::OrTree;
use aqe_typing::{Place, value_at};
use aqe_values::SqlType;
use std::alloc::Global;

/// A condition in which aggregate calls may stand.
fn condition(alloc: Global, tree: &OrTree, place: &Place) -> Result<Expr, AnalysisFault>
    ensures { Says result (sources.condition tree.now (place_seen place.now)) }
{
    let value = value_at(alloc, tree, place)?;
    if is_truth(value.kind) {
        Ok(value.expr)
    } else {
        Err(mismatch(alloc))
    }
}

/// A condition as it is built over the groups.
#[tactic(auto, using(crate::proofs::ReadingSteps::condition_steps))]
fn built_condition(
    alloc: Global,
    tree: &OrTree,
    place: &Place,
    building: &Building,
) -> Result<Typed, AnalysisFault>
    ensures { Says result (having_condition (built_by building.now) (place_seen place.now) tree.now) }
{
    let expr = condition(alloc, tree, place)?;
    let kind = SqlType::Boolean;
    building.built(alloc, Typed { expr, kind })
}

/// HAVING, where there is one.
#[tactic(auto, using(crate::proofs::ReadingSteps::having_steps))]
pub(crate) fn having(
    alloc: Global,
    tree: &Option<OrTree>,
    place: &Place,
    building: &Building,
) -> Result<Option<Typed>, AnalysisFault>
    ensures { Says result (having_of (built_by building.now) (place_seen place.now) tree.now) }
{
    match tree {
        Some(tree) => {
            let value = built_condition(alloc, tree, place, building)?;
            Ok(Some(value))
        }
        None => Ok(None),
    }
}
