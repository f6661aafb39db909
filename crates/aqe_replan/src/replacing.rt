//! The plan after a stage was made.

ghost use Rattle.std.specs.Prelude.{◌≡◌, ◌∷◌, [], IfOk};
ghost use Rattle.aqe_base.specs.declared.join_kind.Side.TheVariants.{Left, Right};
ghost use Rattle.aqe_rects.specs.Rectangles as rects;
ghost use Rattle.aqe_physical.specs.Forms.{join_of};
ghost use Rattle.aqe_replan.specs.Reading.{read_with, replaced_with};

use aqe_base::{JoinKind, Listing, Memory, Rect, Rects, Side, StageId};
use aqe_boxes::{all_three, both};
use aqe_expr::Expr;
use aqe_join_rows::JoinKeys;
use aqe_logical::{AggCalls, Exprs, SortKeys, copy_calls, copy_expr, copy_exprs, copy_sort_keys};
use aqe_physical::{JoinWay, Joining, Plan, Target, copy};
use std::alloc::Global;

/// A stage that was just made, and the number of its maps.
#[derive(Clone, Copy, Drop)]
pub(crate) struct Newest {
    pub(crate) stage: StageId,
    pub(crate) maps: u32,
}

/// A plan with the exchange at a place replaced by what reads the stage that was made of it.
#[cycle(replaced)]
pub(crate) fn replaced(
    alloc: Global,
    plan: &Plan,
    place: &[Side],
    newest: Newest,
) -> Result<Plan, Memory>
    ensures { IfOk result (λ p. p ≡ replaced_with newest.stage newest.maps place.now plan.now) }
{
    match place.split_first() {
        None => here(alloc, plan, newest),
        Some((side, rest)) => match side {
            Side::Left => on_left(alloc, plan, rest, newest),
            Side::Right => on_right(alloc, plan, rest, newest),
        },
    }
}

/// A plan with its top replaced, if that is an exchange.
fn here(alloc: Global, plan: &Plan, newest: Newest) -> Result<Plan, Memory>
    ensures { IfOk result (λ p. p ≡ replaced_with newest.stage newest.maps [] plan.now) }
{
    match plan {
        Plan::Exchange { to, child } => read(alloc, to, child.get(), newest),
        _ => copy(alloc, plan),
    }
}

/// What reads a stage in the place of the exchange that it was made of.
fn read(alloc: Global, to: &Target, child: &Plan, newest: Newest) -> Result<Plan, Memory>
    ensures { IfOk result (λ p. p ≡ read_with newest.stage newest.maps to.now child.now) }
{
    match to {
        Target::Hash { n, .. } => plain_read(alloc, newest, *n),
        Target::Single => plain_read(alloc, newest, 1),
        Target::Broadcast => Ok(Plan::ReadBroadcast {
            stage: newest.stage,
        }),
        Target::Range { keys, n, sample } => match sample {
            Some(_) => plain_read(alloc, newest, *n),
            None => sampled(alloc, keys, *n, newest.stage, child),
        },
    }
}

/// The plain read of a stage: a part for each reducer, with all maps.
fn plain_read(alloc: Global, newest: Newest, reducers: u32) -> Result<Plan, Memory>
    ensures { IfOk result (λ p. p ≡ Plan.Read newest.stage newest.maps reducers (rects.plain_rects newest.maps reducers)) }
{
    let rects = plain_rects(alloc, newest.maps, reducers)?;
    Ok(Plan::Read {
        stage: newest.stage,
        maps: newest.maps,
        reducers,
        rects,
    })
}

/// One rectangle for each reducer, with all maps.
#[tactic(auto, using(crate::proofs::Steps::one_more))]
fn plain_rects(alloc: Global, maps: u32, reducers: u32) -> Result<Rects, Memory>
    ensures { IfOk result (λ all. all ≡ rects.plain_rects maps reducers) }
{
    let mut all = Listing::new(alloc);
    'reducers: for r in 0..reducers {
        all.push(Rect {
            m0: 0,
            m1: maps,
            r0: r,
            r1: r + 1,
        })?;
    }
    Ok(all)
}

/// The exchange by ranges that names its sample.
fn sampled(
    alloc: Global,
    keys: &SortKeys,
    n: u32,
    stage: StageId,
    child: &Plan,
) -> Result<Plan, Memory>
    ensures { IfOk result (λ p. p ≡ Plan.Exchange (Target.Range keys.now n (Some stage)) child.now) }
{
    let (keys, child) = both(copy_sort_keys(alloc, keys), copy(alloc, child))?;
    let to = Target::Range {
        keys,
        n,
        sample: Some(stage),
    };
    Plan::exchange(alloc, to, child)
}

/// A plan with an exchange below its left side or its only child replaced.
#[tactic(auto, using(crate::proofs::Steps::left_steps))]
#[cycle(replaced)]
fn on_left(alloc: Global, plan: &Plan, place: &[Side], newest: Newest) -> Result<Plan, Memory>
    ensures { IfOk result (λ p. p ≡ replaced_with newest.stage newest.maps (Left ∷ place.now) plan.now) }
{
    match plan {
        Plan::OneRow
        | Plan::Scan { .. }
        | Plan::Nothing { .. }
        | Plan::Read { .. }
        | Plan::ReadBroadcast { .. } => copy(alloc, plan),
        Plan::Filter { cond, child } => {
            filter(alloc, cond, replaced(alloc, child.get(), place, newest))
        }
        Plan::Project { items, child } => {
            project(alloc, items, replaced(alloc, child.get(), place, newest))
        }
        Plan::Exchange { to, child } => {
            exchange(alloc, to, replaced(alloc, child.get(), place, newest))
        }
        Plan::Join {
            way,
            kind,
            keys,
            left_width,
            right_width,
            left,
            right,
        } => {
            let shape = joining(alloc, *way, *kind, keys, *left_width, *right_width);
            let left = replaced(alloc, left.get(), place, newest);
            join(alloc, shape, left, copy(alloc, right.get()))
        }
        Plan::PartialAgg { keys, calls, child } => {
            partial(
                alloc,
                keys,
                calls,
                replaced(alloc, child.get(), place, newest),
            )
        }
        Plan::FinalAgg { keys, calls, child } => {
            last(
                alloc,
                *keys,
                calls,
                replaced(alloc, child.get(), place, newest),
            )
        }
        Plan::Sort { keys, child } => {
            sort(alloc, keys, replaced(alloc, child.get(), place, newest))
        }
        Plan::LocalLimit { count, child } => {
            local_limit(alloc, *count, replaced(alloc, child.get(), place, newest))
        }
        Plan::GlobalLimit { count, skip, child } => {
            global_limit(
                alloc,
                *count,
                *skip,
                replaced(alloc, child.get(), place, newest),
            )
        }
        Plan::Union { left, right } => {
            let left = replaced(alloc, left.get(), place, newest);
            union(alloc, left, copy(alloc, right.get()))
        }
    }
}

/// A plan with an exchange below its right side replaced.
#[tactic(auto, using(crate::proofs::Steps::right_steps))]
#[cycle(replaced)]
fn on_right(alloc: Global, plan: &Plan, place: &[Side], newest: Newest) -> Result<Plan, Memory>
    ensures { IfOk result (λ p. p ≡ replaced_with newest.stage newest.maps (Right ∷ place.now) plan.now) }
{
    match plan {
        Plan::Join {
            way,
            kind,
            keys,
            left_width,
            right_width,
            left,
            right,
        } => {
            let shape = joining(alloc, *way, *kind, keys, *left_width, *right_width);
            let right = replaced(alloc, right.get(), place, newest);
            join(alloc, shape, copy(alloc, left.get()), right)
        }
        Plan::Union { left, right } => {
            let right = replaced(alloc, right.get(), place, newest);
            union(alloc, copy(alloc, left.get()), right)
        }
        Plan::OneRow
        | Plan::Scan { .. }
        | Plan::Nothing { .. }
        | Plan::Read { .. }
        | Plan::ReadBroadcast { .. }
        | Plan::Filter { .. }
        | Plan::Project { .. }
        | Plan::Exchange { .. }
        | Plan::PartialAgg { .. }
        | Plan::FinalAgg { .. }
        | Plan::Sort { .. }
        | Plan::LocalLimit { .. }
        | Plan::GlobalLimit { .. } => copy(alloc, plan),
    }
}

// The forms of a plan over what came of the plans below: each hands a want of memory on.

#[tactic(auto, using(crate::proofs::Steps::it_is))]
fn filter(alloc: Global, cond: &Expr, child: Result<Plan, Memory>) -> Result<Plan, Memory>
    ensures { (p : Plan) → IfOk child (λ c. c ≡ p) → IfOk result (λ q. q ≡ Plan.Filter cond.now p) }
{
    let (cond, child) = both(copy_expr(alloc, cond), child)?;
    Plan::filter(alloc, cond, child)
}

#[tactic(auto, using(crate::proofs::Steps::it_is))]
fn project(alloc: Global, items: &Exprs, child: Result<Plan, Memory>) -> Result<Plan, Memory>
    ensures { (p : Plan) → IfOk child (λ c. c ≡ p) → IfOk result (λ q. q ≡ Plan.Project items.now p) }
{
    let (items, child) = both(copy_exprs(alloc, items), child)?;
    Plan::project(alloc, items, child)
}

#[tactic(auto, using(crate::proofs::Steps::it_is))]
fn exchange(alloc: Global, to: &Target, child: Result<Plan, Memory>) -> Result<Plan, Memory>
    ensures { (p : Plan) → IfOk child (λ c. c ≡ p) → IfOk result (λ q. q ≡ Plan.Exchange to.now p) }
{
    let (to, child) = both(to.copy(alloc), child)?;
    Plan::exchange(alloc, to, child)
}

/// What a join is besides its sides, copied.
fn joining(
    alloc: Global,
    way: JoinWay,
    kind: JoinKind,
    keys: &JoinKeys,
    left_width: u32,
    right_width: u32,
) -> Result<Joining, Memory>
    ensures { IfOk result (λ j. j ≡ record { way = way; kind = kind; keys = keys.now; left_width = left_width; right_width = right_width }) }
{
    let keys = keys.copy(alloc)?;
    Ok(Joining {
        way,
        kind,
        keys,
        left_width,
        right_width,
    })
}

#[tactic(auto, using(crate::proofs::Steps::it_is, crate::proofs::Steps::joining_is))]
fn join(
    alloc: Global,
    shape: Result<Joining, Memory>,
    left: Result<Plan, Memory>,
    right: Result<Plan, Memory>,
) -> Result<Plan, Memory>
    ensures { (j : Joining) (l r : Plan) → IfOk shape (λ c. c ≡ j) → IfOk left (λ c. c ≡ l) → IfOk right (λ c. c ≡ r) → IfOk result (λ q. q ≡ join_of j l r) }
{
    let (joining, left, right) = all_three(shape, left, right)?;
    Plan::join(alloc, joining, left, right)
}

#[tactic(auto, using(crate::proofs::Steps::it_is))]
fn partial(
    alloc: Global,
    keys: &Exprs,
    calls: &AggCalls,
    child: Result<Plan, Memory>,
) -> Result<Plan, Memory>
    ensures { (p : Plan) → IfOk child (λ c. c ≡ p) → IfOk result (λ q. q ≡ Plan.PartialAgg keys.now calls.now p) }
{
    let (keys, calls, child) = all_three(copy_exprs(alloc, keys), copy_calls(alloc, calls), child)?;
    Plan::partial(alloc, keys, calls, child)
}

#[tactic(auto, using(crate::proofs::Steps::it_is))]
fn last(
    alloc: Global,
    keys: u32,
    calls: &AggCalls,
    child: Result<Plan, Memory>,
) -> Result<Plan, Memory>
    ensures { (p : Plan) → IfOk child (λ c. c ≡ p) → IfOk result (λ q. q ≡ Plan.FinalAgg keys calls.now p) }
{
    let (calls, child) = both(copy_calls(alloc, calls), child)?;
    Plan::last(alloc, keys, calls, child)
}

#[tactic(auto, using(crate::proofs::Steps::it_is))]
fn sort(alloc: Global, keys: &SortKeys, child: Result<Plan, Memory>) -> Result<Plan, Memory>
    ensures { (p : Plan) → IfOk child (λ c. c ≡ p) → IfOk result (λ q. q ≡ Plan.Sort keys.now p) }
{
    let (keys, child) = both(copy_sort_keys(alloc, keys), child)?;
    Plan::sort(alloc, keys, child)
}

#[tactic(auto, using(crate::proofs::Steps::it_is))]
fn local_limit(alloc: Global, count: u64, child: Result<Plan, Memory>) -> Result<Plan, Memory>
    ensures { (p : Plan) → IfOk child (λ c. c ≡ p) → IfOk result (λ q. q ≡ Plan.LocalLimit count p) }
{
    let child = child?;
    Plan::local_limit(alloc, count, child)
}

#[tactic(auto, using(crate::proofs::Steps::it_is))]
fn global_limit(
    alloc: Global,
    count: Option<u64>,
    skip: u64,
    child: Result<Plan, Memory>,
) -> Result<Plan, Memory>
    ensures { (p : Plan) → IfOk child (λ c. c ≡ p) → IfOk result (λ q. q ≡ Plan.GlobalLimit count skip p) }
{
    let child = child?;
    Plan::global_limit(alloc, count, skip, child)
}

#[tactic(auto, using(crate::proofs::Steps::it_is))]
fn union(
    alloc: Global,
    left: Result<Plan, Memory>,
    right: Result<Plan, Memory>,
) -> Result<Plan, Memory>
    ensures { (l r : Plan) → IfOk left (λ c. c ≡ l) → IfOk right (λ c. c ≡ r) → IfOk result (λ q. q ≡ Plan.Union l r) }
{
    let (left, right) = both(left, right)?;
    Plan::union(alloc, left, right)
}
