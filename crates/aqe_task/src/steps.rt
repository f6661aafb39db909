//! The steps that make rows of the rows of a part.

ghost use Rattle.std.specs.Prelude.{◌≡◌, ◌+◌, map, filter, drop, length, nat_le, IfOk};
ghost use Rattle.aqe_expr.specs.Meaning.{holds};
ghost use Rattle.aqe_logical.specs.Answers.{at_most_rows};
ghost use Rattle.aqe_logical.specs.Groups.{row_of, group_rows, finish_rows};
ghost use Rattle.aqe_logical.specs.Order.{before};
ghost use Rattle.aqe_logical.specs.WellFormed.{HaveWidth};
ghost use Rattle.aqe_places.specs.Sorting.{stable_sort};
ghost use Rattle.aqe_stages.specs.Runnable.{Narrow};
ghost use Rattle.aqe_values.specs.Bounds.{row_limit};
ghost use Rattle.aqe_task.specs.Below.{CanMake, made_by};
ghost use Rattle.aqe_task.specs.Pieces.{rows_in};

use crate::part_rows::{PartRows, into_rows};
use aqe_base::Memory;
use aqe_expr::Expr;
use aqe_logical::{AggCalls, Exprs, SortKeys};
use aqe_operators::{
    filter_lent, filter_rows, final_lent, final_rows, limit_lent, limit_rows, partial_lent,
    partial_rows, project_lent, project_rows,
};
use aqe_physical::Plan;
use aqe_sorting::sort_rows;
use aqe_values::Rows;
use std::alloc::Global;

/// The most values of a row.
pub(crate) const ROW_LIMIT: usize = 1024;

/// The rows of which the condition holds.
fn filtered(alloc: Global, cond: &Expr, rows: PartRows<'_>) -> Result<Rows, Memory>
    ensures { IfOk result (λ kept. kept ≡ filter (holds cond.now) (rows_in rows.entry)) }
{
    match rows {
        PartRows::Lent(pieces) => filter_lent(alloc, cond, pieces.as_slice()),
        PartRows::Owned(rows) => filter_rows(alloc, cond, rows),
    }
}

/// For each row the values of the items over it.
fn projected(alloc: Global, items: &Exprs, rows: PartRows<'_>) -> Result<Rows, Memory>
    requires { Narrow (map (row_of items.now) (rows_in rows)) }
    ensures { IfOk result (λ made. made ≡ map (row_of items.now) (rows_in rows.entry)) }
{
    // There is no row that could have so many values.
    if items.len() > ROW_LIMIT {
        return Ok(Rows::new(alloc));
    }
    match rows {
        PartRows::Lent(pieces) => project_lent(alloc, items, pieces.as_slice()),
        PartRows::Owned(rows) => project_rows(alloc, items, &rows),
    }
}

/// Whether a row has room for a key and the calls.
fn has_room(keys: usize, calls: &AggCalls) -> bool
    ensures { result ≡ nat_le (keys + length calls.now) row_limit }
{
    keys <= ROW_LIMIT && calls.len() <= ROW_LIMIT - keys
}

/// The partial rows of the groups.
fn grouped(
    alloc: Global,
    keys: &Exprs,
    calls: &AggCalls,
    rows: PartRows<'_>,
) -> Result<Rows, Memory>
    requires { Narrow (group_rows (length keys.now) (row_of keys.now) calls.now (rows_in rows)) }
    ensures { IfOk result (λ made. made ≡ group_rows (length keys.now) (row_of keys.now) calls.now (rows_in rows.entry)) }
{
    // There is no group whose row could have so many values.
    if !has_room(keys.len(), calls) {
        return Ok(Rows::new(alloc));
    }
    match rows {
        PartRows::Lent(pieces) => partial_lent(alloc, keys, calls, pieces.as_slice()),
        PartRows::Owned(rows) => partial_rows(alloc, keys, calls, &rows),
    }
}

/// The groups of partial rows.
fn finished(alloc: Global, keys: u32, calls: &AggCalls, rows: PartRows<'_>) -> Result<Rows, Memory>
    requires width { HaveWidth (keys + length calls.now) (rows_in rows) }
    requires narrow { Narrow (rows_in rows) × Narrow (finish_rows keys calls.now (rows_in rows)) }
    ensures { IfOk result (λ made. made ≡ finish_rows keys calls.now (rows_in rows.entry)) }
{
    // There is no partial row that could have so many values.
    if !has_room(keys as usize, calls) {
        return Ok(Rows::new(alloc));
    }
    match rows {
        PartRows::Lent(pieces) => final_lent(alloc, keys, calls, pieces.as_slice()),
        PartRows::Owned(rows) => final_rows(alloc, keys, calls, &rows),
    }
}

/// The rows in the order of the keys. Rows that were made move.
fn sorted(alloc: Global, keys: &SortKeys, rows: PartRows<'_>) -> Result<Rows, Memory>
    ensures { IfOk result (λ sorted. sorted ≡ stable_sort (before keys.now) (rows_in rows.entry)) }
{
    let rows = into_rows(alloc, rows)?;
    sort_rows(alloc, keys, rows)
}

/// The rows behind the first `skip`, and of these the first `count` or all. Lent rows stay lent.
fn limited<'a>(rows: PartRows<'a>, count: Option<u64>, skip: u64) -> PartRows<'a>
    ensures { rows_in result ≡ at_most_rows count (drop skip (rows_in rows.entry)) }
{
    match rows {
        PartRows::Lent(pieces) => PartRows::Lent(limit_lent(pieces, count, skip)),
        PartRows::Owned(rows) => PartRows::Owned(limit_rows(rows, count, skip)),
    }
}

/// The rows that a plan makes of those of a part of the plan below it.
#[tactic(auto, using(crate::proofs::MadeSteps::made_steps))]
pub(crate) fn made<'a>(
    alloc: Global,
    plan: &Plan,
    rows: PartRows<'a>,
) -> Result<PartRows<'a>, Memory>
    requires { CanMake plan.now (rows_in rows) }
    ensures { IfOk result (λ part. rows_in part ≡ made_by plan.now (rows_in rows.entry)) }
{
    match plan {
        Plan::Filter { cond, .. } => {
            let kept = filtered(alloc, cond, rows)?;
            Ok(PartRows::Owned(kept))
        }
        Plan::Project { items, .. } => {
            let made = projected(alloc, items, rows)?;
            Ok(PartRows::Owned(made))
        }
        Plan::PartialAgg { keys, calls, .. } => {
            let made = grouped(alloc, keys, calls, rows)?;
            Ok(PartRows::Owned(made))
        }
        Plan::FinalAgg { keys, calls, .. } => {
            let made = finished(alloc, *keys, calls, rows)?;
            Ok(PartRows::Owned(made))
        }
        Plan::Sort { keys, .. } => {
            let made = sorted(alloc, keys, rows)?;
            Ok(PartRows::Owned(made))
        }
        Plan::LocalLimit { count, .. } => Ok(limited(rows, Some(*count), 0)),
        Plan::GlobalLimit { count, skip, .. } => Ok(limited(rows, *count, *skip)),
        Plan::OneRow
        | Plan::Scan { .. }
        | Plan::Nothing { .. }
        | Plan::Read { .. }
        | Plan::ReadBroadcast { .. }
        | Plan::Exchange { .. }
        | Plan::Join { .. }
        | Plan::Union { .. } => unreachable!(),
    }
}
