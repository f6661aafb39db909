//! What a join is besides its two sides.

ghost use Rattle.std.specs.Prelude.{◌≡◌, IfOk};
ghost use Rattle.aqe_join_keys.specs.Keys.{has_keys};
ghost use Rattle.aqe_join_plan.specs.Steps.{joining_of};
ghost use Rattle.aqe_settings.specs.Values.{values_of};

use crate::sizes::{JoinSides, way_by_sizes};
use crate::widths::width_of;
use aqe_base::{JoinKind, Memory};
use aqe_boxes::both;
use aqe_expr::Expr;
use aqe_join_keys::join_keys;
use aqe_join_rows::JoinKeys;
use aqe_physical::{Estimates, JoinWay, Joining};
use aqe_settings::Settings;
use std::alloc::Global;

/// Whether rows have to have equal keys to be joined.
fn has_keys(keys: &JoinKeys) -> bool
    ensures { result ≡ has_keys keys.now }
{
    !keys.left.is_empty()
}

/// The way, the keys and the widths of a join of two sides of a query of which no stage was made.
pub fn joining(
    alloc: Global,
    kind: JoinKind,
    cond: &Expr,
    sides: JoinSides,
    estimates: &Estimates,
    settings: &Settings,
) -> Result<Joining, Memory>
    ensures { IfOk result (λ join. join ≡ joining_of kind cond.now sides.entry.left.now sides.entry.right.now estimates.now (values_of settings.now)) }
{
    let (left_width, right_width) = both(width_of(sides.left), width_of(sides.right))?;
    let keys = join_keys(alloc, cond, left_width)?;
    let way = if has_keys(&keys) {
        way_by_sizes(kind, sides, estimates, settings)
    } else {
        JoinWay::NestedLoop
    };
    Ok(Joining {
        way,
        kind,
        keys,
        left_width,
        right_width,
    })
}
