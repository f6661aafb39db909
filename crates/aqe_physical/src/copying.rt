//! Copies of plans.

ghost use Rattle.std.specs.Prelude.{◌≡◌, IfOk};
ghost use Rattle.aqe_physical.specs.Forms.{join_of};

use crate::{Joining, Plan, Target};
use aqe_base::{Listing, Memory, Rects, StageId};
use aqe_boxes::{all_three, both};
use aqe_expr::Expr;
use aqe_logical::{AggCalls, Exprs, SortKeys, copy_calls, copy_expr, copy_exprs, copy_sort_keys};
use std::alloc::Global;

/// A plan equal to this one.
#[cycle(copy)]
pub fn copy(alloc: Global, plan: &Plan) -> Result<Plan, Memory>
    ensures { IfOk result (λ p. p ≡ plan.now) }
{
    match plan {
        Plan::OneRow => Ok(Plan::OneRow),
        Plan::Scan { table, files } => Ok(Plan::Scan {
            table: *table,
            files: *files,
        }),
        Plan::Nothing { parts, width } => Ok(Plan::Nothing {
            parts: *parts,
            width: *width,
        }),
        Plan::Read {
            stage,
            maps,
            reducers,
            rects,
        } => read(alloc, *stage, *maps, *reducers, rects),
        Plan::ReadBroadcast { stage } => Ok(Plan::ReadBroadcast { stage: *stage }),
        Plan::Filter { cond, child } => filter(alloc, cond, child.get()),
        Plan::Project { items, child } => project(alloc, items, child.get()),
        Plan::Exchange { to, child } => exchange(alloc, to, child.get()),
        Plan::Join {
            way,
            kind,
            keys,
            left_width,
            right_width,
            left,
            right,
        } => {
            let joining = Joining {
                way: *way,
                kind: *kind,
                keys: keys.copy(alloc)?,
                left_width: *left_width,
                right_width: *right_width,
            };
            join(alloc, joining, left.get(), right.get())
        }
        Plan::PartialAgg { keys, calls, child } => partial(alloc, keys, calls, child.get()),
        Plan::FinalAgg { keys, calls, child } => last(alloc, *keys, calls, child.get()),
        Plan::Sort { keys, child } => sort(alloc, keys, child.get()),
        Plan::LocalLimit { count, child } => local_limit(alloc, *count, child.get()),
        Plan::GlobalLimit { count, skip, child } => {
            global_limit(alloc, *count, *skip, child.get())
        }
        Plan::Union { left, right } => union(alloc, left.get(), right.get()),
    }
}

/// Rectangles equal to these.
pub(crate) fn copy_rects(alloc: Global, rects: &Rects) -> Result<Rects, Memory>
    ensures { IfOk result (λ r. r ≡ rects.now) }
{
    let mut copied = Listing::new(alloc);
    'items: for rect in rects.slice() {
        copied.push(*rect)?;
    }
    Ok(copied)
}

fn read(
    alloc: Global,
    stage: StageId,
    maps: u32,
    reducers: u32,
    rects: &Rects,
) -> Result<Plan, Memory>
    ensures { IfOk result (λ p. p ≡ Plan.Read stage maps reducers rects.now) }
{
    let rects = copy_rects(alloc, rects)?;
    Ok(Plan::Read {
        stage,
        maps,
        reducers,
        rects,
    })
}

#[cycle(copy)]
fn filter(alloc: Global, cond: &Expr, child: &Plan) -> Result<Plan, Memory>
    ensures { IfOk result (λ p. p ≡ Plan.Filter cond.now child.now) }
{
    let (cond, child) = both(copy_expr(alloc, cond), copy(alloc, child))?;
    Plan::filter(alloc, cond, child)
}

#[cycle(copy)]
fn project(alloc: Global, items: &Exprs, child: &Plan) -> Result<Plan, Memory>
    ensures { IfOk result (λ p. p ≡ Plan.Project items.now child.now) }
{
    let (items, child) = both(copy_exprs(alloc, items), copy(alloc, child))?;
    Plan::project(alloc, items, child)
}

#[cycle(copy)]
fn exchange(alloc: Global, to: &Target, child: &Plan) -> Result<Plan, Memory>
    ensures { IfOk result (λ p. p ≡ Plan.Exchange to.now child.now) }
{
    let (to, child) = both(to.copy(alloc), copy(alloc, child))?;
    Plan::exchange(alloc, to, child)
}

#[cycle(copy)]
fn join(alloc: Global, joining: Joining, left: &Plan, right: &Plan) -> Result<Plan, Memory>
    ensures { IfOk result (λ p. p ≡ join_of joining left.now right.now) }
{
    let (joining, left, right) = all_three(Ok(joining), copy(alloc, left), copy(alloc, right))?;
    Plan::join(alloc, joining, left, right)
}

#[cycle(copy)]
fn partial(alloc: Global, keys: &Exprs, calls: &AggCalls, child: &Plan) -> Result<Plan, Memory>
    ensures { IfOk result (λ p. p ≡ Plan.PartialAgg keys.now calls.now child.now) }
{
    let (keys, calls, child) = all_three(
        copy_exprs(alloc, keys),
        copy_calls(alloc, calls),
        copy(alloc, child),
    )?;
    Plan::partial(alloc, keys, calls, child)
}

#[cycle(copy)]
fn last(alloc: Global, keys: u32, calls: &AggCalls, child: &Plan) -> Result<Plan, Memory>
    ensures { IfOk result (λ p. p ≡ Plan.FinalAgg keys calls.now child.now) }
{
    let (calls, child) = both(copy_calls(alloc, calls), copy(alloc, child))?;
    Plan::last(alloc, keys, calls, child)
}

#[cycle(copy)]
fn sort(alloc: Global, keys: &SortKeys, child: &Plan) -> Result<Plan, Memory>
    ensures { IfOk result (λ p. p ≡ Plan.Sort keys.now child.now) }
{
    let (keys, child) = both(copy_sort_keys(alloc, keys), copy(alloc, child))?;
    Plan::sort(alloc, keys, child)
}

#[cycle(copy)]
fn local_limit(alloc: Global, count: u64, child: &Plan) -> Result<Plan, Memory>
    ensures { IfOk result (λ p. p ≡ Plan.LocalLimit count child.now) }
{
    let child = copy(alloc, child)?;
    Plan::local_limit(alloc, count, child)
}

#[cycle(copy)]
fn global_limit(alloc: Global, count: Option<u64>, skip: u64, child: &Plan) -> Result<Plan, Memory>
    ensures { IfOk result (λ p. p ≡ Plan.GlobalLimit count skip child.now) }
{
    let child = copy(alloc, child)?;
    Plan::global_limit(alloc, count, skip, child)
}

#[cycle(copy)]
fn union(alloc: Global, left: &Plan, right: &Plan) -> Result<Plan, Memory>
    ensures { IfOk result (λ p. p ≡ Plan.Union left.now right.now) }
{
    let (left, right) = both(copy(alloc, left), copy(alloc, right))?;
    Plan::union(alloc, left, right)
}
