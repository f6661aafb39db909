//! Physical plans and their copies, with ample memory.

use aqe_base::{JoinKind, Memory, Side};
use aqe_boxes::both;
use aqe_expr::Expr;
use aqe_join_rows::JoinKeys;
use aqe_logical::{AggCalls, Exprs, SortKeys};
use aqe_physical::{JoinWay, Joining, Plan, StageKind, Target, copy, copy_kind};
use aqe_values::Value;
use std::alloc::Global;
use std::test::Fail;

fn truth() -> Expr {
    Expr::Literal(Value::Boolean(true))
}

fn filtered(alloc: Global) -> Result<Plan, Memory> {
    let scan = Plan::Scan { table: 0, files: 2 };
    Plan::filter(alloc, truth(), scan)
}

fn projected(alloc: Global) -> Result<Plan, Memory> {
    let child = filtered(alloc)?;
    Plan::project(alloc, Exprs::new(alloc), child)
}

/// A hash over no key, into four parts.
fn by_hash(alloc: Global) -> Target {
    Target::Hash {
        keys: Exprs::new(alloc),
        n: 4,
    }
}

fn grouped(alloc: Global) -> Result<Plan, Memory> {
    let child = projected(alloc)?;
    Plan::partial(alloc, Exprs::new(alloc), AggCalls::new(alloc), child)
}

fn exchanged(alloc: Global) -> Result<Plan, Memory> {
    let child = grouped(alloc)?;
    Plan::exchange(alloc, by_hash(alloc), child)
}

fn finished(alloc: Global) -> Result<Plan, Memory> {
    let child = exchanged(alloc)?;
    Plan::last(alloc, 0, AggCalls::new(alloc), child)
}

fn sorted(alloc: Global) -> Result<Plan, Memory> {
    let child = finished(alloc)?;
    Plan::sort(alloc, SortKeys::new(alloc), child)
}

fn limited(alloc: Global) -> Result<Plan, Memory> {
    let child = sorted(alloc)?;
    Plan::local_limit(alloc, 3, child)
}

fn cut(alloc: Global) -> Result<Plan, Memory> {
    let child = limited(alloc)?;
    Plan::global_limit(alloc, Some(3), 1, child)
}

/// A broadcast join without keys.
fn joining(alloc: Global) -> Joining {
    Joining {
        way: JoinWay::Broadcast(Side::Right),
        kind: JoinKind::Cross,
        keys: JoinKeys {
            left: Exprs::new(alloc),
            right: Exprs::new(alloc),
            rest: truth(),
        },
        left_width: 0,
        right_width: 0,
    }
}

fn joined(alloc: Global) -> Result<Plan, Memory> {
    let (left, right) = both(cut(alloc), filtered(alloc))?;
    Plan::join(alloc, joining(alloc), left, right)
}

fn whole(alloc: Global) -> Result<Plan, Memory> {
    let child = joined(alloc)?;
    Plan::union(alloc, child, Plan::OneRow)
}

#[test]
fn plans_are_made_and_copied(rt: HostRuntime) -> Result<(), Fail> {
    let plan = whole(rt.alloc())?;
    assert!(rt; copy(rt.alloc(), &plan).is_ok());
    Ok(())
}

#[test]
fn kinds_of_stages_are_copied(rt: HostRuntime) -> Result<(), Fail> {
    let alloc = rt.alloc();
    assert!(rt; by_hash(alloc).copy(alloc).is_ok());
    let kind = StageKind::Shuffle(by_hash(alloc));
    assert!(rt; copy_kind(alloc, &kind).is_ok());
    let kind = StageKind::Sample(SortKeys::new(alloc));
    assert!(rt; copy_kind(alloc, &kind).is_ok());
    Ok(())
}

/// A union of 256 leaves, each further one to the right of those before it.
fn many_leaves(alloc: Global) -> Result<Plan, Memory> {
    let mut plan = Plan::OneRow;
    for _ in 0..255u32 {
        plan = Plan::union(alloc, plan, Plan::OneRow)?;
    }
    Ok(plan)
}

/// A thousand filters, one over the other.
fn deep(alloc: Global) -> Result<Plan, Memory> {
    let mut plan = Plan::OneRow;
    for _ in 0..1000u32 {
        plan = Plan::filter(alloc, truth(), plan)?;
    }
    Ok(plan)
}

#[test]
fn plans_of_many_leaves_are_copied_and_dropped(rt: HostRuntime) -> Result<(), Fail> {
    let plan = many_leaves(rt.alloc())?;
    assert!(rt; copy(rt.alloc(), &plan).is_ok());
    Ok(())
}

#[test]
fn deep_plans_are_copied_and_dropped(rt: HostRuntime) -> Result<(), Fail> {
    let plan = deep(rt.alloc())?;
    assert!(rt; copy(rt.alloc(), &plan).is_ok());
    Ok(())
}
