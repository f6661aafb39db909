//! The cells that an exchange sends rows to.

ghost use Rattle.std.specs.Prelude.{◌≡◌, ◌<◌, length, IfOk, IsSome};
ghost use Rattle.std.specs.List.Sorted.{IsSortedBy};
ghost use Rattle.aqe_logical.specs.Groups.{row_of};
ghost use Rattle.aqe_logical.specs.Order.{key_of};
ghost use Rattle.aqe_places.specs.Places.{by_hash, exchanged};
ghost use Rattle.aqe_ranges.specs.Order.{key_less, range_place};
ghost use Rattle.aqe_stages.specs.Runnable.{NarrowKeys};
ghost use Rattle.aqe_task.specs.Pieces.{AreBounds, AreRanged, AreSamples, AreSent, CanSend};

use crate::part_rows::into_rows;
use crate::reading::read_all;
use crate::steps::ROW_LIMIT;
use aqe_base::{Memory, StageId};
use aqe_blocks::{MapOutput, Outputs};
use aqe_exchange::{spread_hash, spread_single};
use aqe_logical::{Exprs, SortKeys};
use aqe_physical::Target;
use aqe_ranges::spread_range;
use aqe_values::Rows;
use std::alloc::Global;

/// Sends each row to the cell of its hash.
fn by_keys(alloc: Global, keys: &Exprs, n: u32, rows: Rows) -> Result<MapOutput, Memory>
    requires parts { 0 < n }
    requires keys { NarrowKeys (row_of keys.now) rows }
    ensures { IfOk result (λ cells. cells ≡ exchanged (by_hash n keys.now) n rows) }
{
    // There is no row whose key could have so many values.
    if keys.len() > ROW_LIMIT {
        return spread_hash(alloc, Rows::new(alloc), &Exprs::new(alloc), n);
    }
    spread_hash(alloc, rows, keys, n)
}

/// All samples that a range names.
fn samples_of(alloc: Global, sample: Option<StageId>, outputs: &Outputs) -> Result<Rows, Memory>
    requires { IsSome sample }
    ensures { IfOk result (AreSamples outputs.now sample) }
{
    let Some(stage) = sample else { unreachable!() };
    let samples = read_all(alloc, outputs, stage)?;
    into_rows(alloc, samples)
}

/// The bounds of so many ranges, taken of all samples.
fn bounds_of(
    alloc: Global,
    keys: &SortKeys,
    n: u32,
    sample: Option<StageId>,
    outputs: &Outputs,
) -> Result<Rows, Memory>
    requires parts { 0 < n }
    requires sample { IsSome sample }
    ensures value { IfOk result (AreBounds outputs.now keys.now n sample) }
    ensures few { IfOk result (λ bounds. length bounds < n) }
    ensures order { IfOk result (λ bounds. IsSortedBy (key_less keys.now) bounds) }
{
    let samples = samples_of(alloc, sample, outputs)?;
    aqe_ranges::bounds(alloc, &samples, keys, n)
}

/// Sends each row to the cell of its range, by the bounds of the ranges.
fn by_bounds(
    alloc: Global,
    keys: &SortKeys,
    bounds: &Rows,
    n: u32,
    rows: Rows,
) -> Result<MapOutput, Memory>
    requires few { length bounds.now < n }
    requires order { IsSortedBy (key_less keys.now) bounds.now }
    requires keys { NarrowKeys (key_of keys.now) rows }
    ensures { IfOk result (λ cells. cells ≡ exchanged (range_place keys.now bounds.now) n rows) }
{
    // There is no row whose key could have so many values.
    if keys.len() > ROW_LIMIT {
        return spread_hash(alloc, Rows::new(alloc), &Exprs::new(alloc), n);
    }
    spread_range(alloc, rows, keys, bounds, n)
}

/// Sends each row to the cell of its range.
fn by_range(
    alloc: Global,
    keys: &SortKeys,
    n: u32,
    sample: Option<StageId>,
    rows: Rows,
    outputs: &Outputs,
) -> Result<MapOutput, Memory>
    requires parts { 0 < n }
    requires sample { IsSome sample }
    requires keys { NarrowKeys (key_of keys.now) rows }
    ensures { IfOk result (AreRanged outputs.now keys.now n sample rows) }
{
    let bounds = bounds_of(alloc, keys, n, sample, outputs)?;
    by_bounds(alloc, keys, &bounds, n, rows)
}

/// Sends each row to its cell.
pub(crate) fn send_rows(
    alloc: Global,
    to: &Target,
    rows: Rows,
    outputs: &Outputs,
) -> Result<MapOutput, Memory>
    requires { CanSend to.now rows }
    ensures { IfOk result (AreSent outputs.now to.now rows) }
{
    match to {
        Target::Hash { keys, n } => by_keys(alloc, keys, *n, rows),
        Target::Range { keys, n, sample } => by_range(alloc, keys, *n, *sample, rows, outputs),
        Target::Single => spread_single(alloc, rows),
        Target::Broadcast => spread_single(alloc, rows),
    }
}
