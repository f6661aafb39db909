//! Sorts: of parts that are in order end to end, or behind an exchange that brings rows to the ranges of their keys.

ghost use Rattle.std.specs.Prelude.{◌≡◌, None, IfOk};
ghost use Rattle.std.specs.Cmp.Lexicographic.{pointwise};
ghost use Rattle.aqe_fitting.specs.Placing as spec;
ghost use Rattle.aqe_planner.specs.Steps.{sort_moved, sort_place, sort_plan};

use aqe_base::Memory;
use aqe_boxes::both;
use aqe_logical::{Placement, SortKey, SortKeys, copy_sort_keys};
use aqe_physical::{Plan, Target};
use aqe_placing::{Standing, is_nothing, stands};
use aqe_same::same_expr;
use std::alloc::Global;

/// Whether both sort keys compare the same expression in the same way.
fn same_key(a: &SortKey, b: &SortKey) -> bool
    ensures { result ≡ spec.same_key a.now b.now }
{
    same_expr(&a.expr, &b.expr) && a.way == b.way
}

/// Whether both lists have the same sort keys in the same order.
fn are_same(a: &[SortKey], b: &[SortKey]) -> bool
    ensures { result ≡ pointwise spec.same_key a.now b.now }
{
    match a.split_first() {
        None => b.is_empty(),
        Some((x, xs)) => match b.split_first() {
            None => false,
            Some((y, ys)) => same_key(x, y) && are_same(xs, ys),
        },
    }
}

/// Whether rows stand in one part, or by ranges of just these keys.
fn keeps_order(keys: &[SortKey], place: &Placement) -> bool
    ensures { result ≡ spec.keeps_order keys.now place.now }
{
    match place {
        Placement::Single => true,
        Placement::Range(others) => are_same(others.slice(), keys),
        Placement::Any | Placement::Hash(_) | Placement::Broadcast => false,
    }
}

/// Whether the parts of a plan are in order end to end once each is sorted, or there are no rows.
fn serves(keys: &SortKeys, from: &Standing) -> bool
    ensures { result ≡ spec.serves (spec.order_of keys.now) from.now.plan from.now.place }
{
    is_nothing(&from.plan) || keeps_order(keys.slice(), &from.place)
}

/// Each part of a plan sorted.
fn sorted_here(alloc: Global, keys: &SortKeys, plan: Plan) -> Result<Plan, Memory>
    ensures { IfOk result (λ p. p ≡ Plan.Sort keys.now plan) }
{
    let (keys, plan) = both(copy_sort_keys(alloc, keys), Ok(plan))?;
    Plan::sort(alloc, keys, plan)
}

/// The rows of a plan brought to `n` parts by ranges of their keys. No sample of them was taken so far.
fn ranged(alloc: Global, keys: &SortKeys, n: u32, plan: Plan) -> Result<Plan, Memory>
    ensures { IfOk result (λ p. p ≡ Plan.Exchange (Target.Range keys.now n None) plan) }
{
    let (keys, plan) = both(copy_sort_keys(alloc, keys), Ok(plan))?;
    let to = Target::Range {
        keys,
        n,
        sample: None,
    };
    Plan::exchange(alloc, to, plan)
}

/// Each part sorted of rows that are brought to the ranges of their keys.
fn sorted_behind(alloc: Global, keys: &SortKeys, n: u32, plan: Plan) -> Result<Plan, Memory>
    ensures { IfOk result (λ p. p ≡ sort_moved n keys.now plan) }
{
    let plan = ranged(alloc, keys, n, plan)?;
    sorted_here(alloc, keys, plan)
}

/// The place by ranges of sort keys.
fn range_of(alloc: Global, keys: &SortKeys) -> Result<Placement, Memory>
    ensures { IfOk result (λ w. w ≡ Placement.Range keys.now) }
{
    let keys = copy_sort_keys(alloc, keys)?;
    Ok(Placement::Range(keys))
}

/// Rows that are sorted where they stand.
fn stand_here(alloc: Global, keys: &SortKeys, from: Standing) -> Result<Standing, Memory>
    ensures plan { IfOk result (λ s. s.plan ≡ Plan.Sort keys.now from.plan) }
    ensures place { IfOk result (λ s. s.place ≡ from.place) }
{
    let Standing { plan, place } = from;
    stands(both(sorted_here(alloc, keys, plan), Ok(place)))
}

/// Rows that are sorted behind an exchange.
fn stand_behind(alloc: Global, keys: &SortKeys, n: u32, plan: Plan) -> Result<Standing, Memory>
    ensures plan { IfOk result (λ s. s.plan ≡ sort_moved n keys.now plan) }
    ensures place { IfOk result (λ s. s.place ≡ Placement.Range keys.now) }
{
    let plan = sorted_behind(alloc, keys, n, plan);
    stands(both(plan, range_of(alloc, keys)))
}

/// The rows of a plan in the order of the keys.
pub(crate) fn sorted(
    alloc: Global,
    keys: &SortKeys,
    n: u32,
    from: Standing,
) -> Result<Standing, Memory>
    ensures plan { IfOk result (λ s. s.plan ≡ sort_plan n keys.now from.plan from.place) }
    ensures place { IfOk result (λ s. s.place ≡ sort_place keys.now from.plan from.place) }
{
    if serves(keys, &from) {
        stand_here(alloc, keys, from)
    } else {
        stand_behind(alloc, keys, n, from.plan)
    }
}
