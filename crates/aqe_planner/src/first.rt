//! The plan of a query by the files of its tables alone.

ghost use Rattle.std.specs.Prelude.{◌≡◌, [], length, IfOk};
ghost use Rattle.aqe_settings.specs.Values.{values_of};
ghost use Rattle.aqe_fitting.specs.Fits.{Fits, IsPlanned};
ghost use Rattle.aqe_planner.specs.Built.{IsBuilt, LimitsFit, Reaches};

use crate::groups::grouped;
use crate::limits::limited;
use crate::sorts::sorted;
use crate::unions::united;
use aqe_base::Memory;
use aqe_boxes::{all_three, both};
use aqe_join_plan::{JoinSides, joined, joining};
use aqe_logical::{Logical, Placement};
use aqe_physical::{Estimates, Plan};
use aqe_placing::{Standing, filtered, projected};
use aqe_settings::Settings;
use std::alloc::Global;

/// The plan and the place of the rows of a query, built from the leaves.
fn planned(
    alloc: Global,
    logical: &Logical,
    estimates: &Estimates,
    settings: &Settings,
) -> Result<Standing, Memory>
    requires built { IsBuilt logical.now }
    requires estimates { Reaches (length estimates.now) logical.now }
    requires limits { LimitsFit logical.now }
    ensures { IfOk result (λ s. IsPlanned s.plan logical.now estimates.now [] (values_of settings.now) s.place) }
{
    match logical {
        Logical::OneRow => Ok(Standing {
            plan: Plan::OneRow,
            place: Placement::Single,
        }),
        Logical::Scan { table, .. } => Ok(Standing {
            plan: Plan::Scan {
                table: *table,
                files: estimates.at(*table as usize).files,
            },
            place: Placement::Any,
        }),
        Logical::Filter { cond, child } => {
            let from = planned(alloc, child.get(), estimates, settings)?;
            filtered(alloc, cond, from)
        }
        Logical::Project { items, child, .. } => {
            let from = planned(alloc, child.get(), estimates, settings)?;
            projected(alloc, items, from)
        }
        Logical::Aggregate {
            keys,
            calls,
            child,
            ..
        } => {
            let from = planned(alloc, child.get(), estimates, settings)?;
            grouped(alloc, keys, calls, settings.exchange_partitions(), from)
        }
        Logical::Join {
            kind,
            cond,
            left,
            right,
        } => {
            let (left, right) = (left.get(), right.get());
            let sides = JoinSides { left, right };
            let (join, left, right) = all_three(
                joining(alloc, *kind, cond, sides, estimates, settings),
                planned(alloc, left, estimates, settings),
                planned(alloc, right, estimates, settings),
            )?;
            joined(alloc, join, settings.exchange_partitions(), left, right)
        }
        Logical::Union { left, right } => {
            let (left, right) = both(
                planned(alloc, left.get(), estimates, settings),
                planned(alloc, right.get(), estimates, settings),
            )?;
            united(alloc, left, right)
        }
        Logical::Limit { count, skip, child } => {
            let from = planned(alloc, child.get(), estimates, settings)?;
            limited(alloc, *count, *skip, from)
        }
        Logical::Sort { keys, child } => {
            let from = planned(alloc, child.get(), estimates, settings)?;
            sorted(alloc, keys, settings.exchange_partitions(), from)
        }
        Logical::Empty { .. }
        | Logical::Held { .. }
        | Logical::HeldPartial { .. }
        | Logical::Sampled { .. } => unreachable!(),
    }
}

/// The one plan that fits a query of which no stage was made.
///
/// It is decided by the number of files of each table, by the sizes of files where a side of a join might be broadcast, and by the
/// number of partitions that the settings give an exchange.
pub fn first_plan(
    alloc: Global,
    logical: &Logical,
    estimates: &Estimates,
    settings: &Settings,
) -> Result<Plan, Memory>
    requires built { IsBuilt logical.now }
    requires estimates { Reaches (length estimates.now) logical.now }
    requires limits { LimitsFit logical.now }
    ensures { IfOk result (λ p. Fits p logical.now estimates.now [] (values_of settings.now)) }
{
    let planned = planned(alloc, logical, estimates, settings)?;
    Ok(planned.plan)
}
