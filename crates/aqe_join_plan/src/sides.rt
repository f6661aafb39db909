//! The sides of a join: what is wanted of each is brought, and where the joined rows stand.

ghost use Rattle.std.specs.Prelude.{◌≡◌, IfOk};
ghost use Rattle.aqe_fitting.specs.Placing.{after_join, hash_of, one_part, whole};
ghost use Rattle.aqe_join_plan.specs.Steps as spec;

use aqe_base::{Memory, Side};
use aqe_boxes::both;
use aqe_logical::{Exprs, Placement, copy_exprs};
use aqe_physical::{JoinWay, Joining, Plan, Target};
use aqe_placing::{
    Standing, after_join, is_hash_of, is_kept_whole, is_nothing, is_single, placed_behind, stands,
};
use std::alloc::Global;

/// What a join wants of a side.
#[derive(Clone, Copy, Debug, PartialEq, Eq, Drop)]
pub(crate) enum Want {
    /// Its rows in the parts where they stand.
    AsItStands,
    /// Its rows by the hash of their keys.
    ByHash,
    /// All of its rows for every part of the other side.
    Whole,
    /// All of its rows in one part.
    OnePart,
}

/// What a join that is carried out in this way wants of a side.
fn wanted(side: Side, way: JoinWay) -> Want
    ensures { result ≡ spec.wanted side way }
{
    match way {
        JoinWay::SortMerge => Want::ByHash,
        JoinWay::ShuffledHash(_) => Want::ByHash,
        JoinWay::Broadcast(built) => {
            if built == side {
                Want::Whole
            } else {
                Want::AsItStands
            }
        }
        JoinWay::NestedLoop => Want::OnePart,
    }
}

/// A side whose rows stand by the hash of these keys.
fn by_hash(
    alloc: Global,
    n: u32,
    keys: &Exprs,
    plan: Plan,
    place: &Placement,
) -> Result<Plan, Memory>
    ensures { IfOk result (λ p. p ≡ spec.brought (hash_of keys.now) (Target.Hash keys.now n) plan place.now) }
{
    if is_nothing(&plan) || is_hash_of(keys.slice(), place) {
        Ok(plan)
    } else {
        let (keys, plan) = both(copy_exprs(alloc, keys), Ok(plan))?;
        Plan::exchange(alloc, Target::Hash { keys, n }, plan)
    }
}

/// A side that is kept whole for every part of the other one.
fn kept_whole(alloc: Global, plan: Plan, place: &Placement) -> Result<Plan, Memory>
    ensures { IfOk result (λ p. p ≡ spec.brought whole Target.Broadcast plan place.now) }
{
    if is_nothing(&plan) || is_kept_whole(&plan) {
        Ok(plan)
    } else {
        Plan::exchange(alloc, Target::Broadcast, plan)
    }
}

/// A side whose rows stand in one part.
fn in_one_part(alloc: Global, plan: Plan, place: &Placement) -> Result<Plan, Memory>
    ensures { IfOk result (λ p. p ≡ spec.brought one_part Target.Single plan place.now) }
{
    if is_nothing(&plan) || is_single(place) {
        Ok(plan)
    } else {
        Plan::exchange(alloc, Target::Single, plan)
    }
}

/// A side with what is wanted of it.
fn brought(
    alloc: Global,
    want: Want,
    n: u32,
    keys: &Exprs,
    plan: Plan,
    place: &Placement,
) -> Result<Plan, Memory>
    ensures { IfOk result (λ p. p ≡ spec.side_plan want n keys.now plan place.now) }
{
    match want {
        Want::AsItStands => Ok(plan),
        Want::ByHash => by_hash(alloc, n, keys, plan, place),
        Want::Whole => kept_whole(alloc, plan, place),
        Want::OnePart => in_one_part(alloc, plan, place),
    }
}

/// Where the rows of a join stand.
fn place_of(
    alloc: Global,
    join: &Joining,
    left: Placement,
    right: Placement,
) -> Result<Placement, Memory>
    ensures { IfOk result (λ w. w ≡ spec.join_place join.now left right) }
{
    match join.way {
        JoinWay::SortMerge => after(alloc, join),
        JoinWay::ShuffledHash(_) => after(alloc, join),
        JoinWay::Broadcast(Side::Left) => {
            placed_behind(alloc, join.left_width, join.right_width, &right)
        }
        JoinWay::Broadcast(Side::Right) => Ok(left),
        JoinWay::NestedLoop => Ok(Placement::Single),
    }
}

/// Where the rows of a join stand whose parts were joined with each other.
fn after(alloc: Global, join: &Joining) -> Result<Placement, Memory>
    ensures { IfOk result (λ w. w ≡ after_join join.now.kind join.now.keys join.now.left_width join.now.right_width) }
{
    after_join(
        alloc,
        join.kind,
        &join.keys,
        join.left_width,
        join.right_width,
    )
}

/// The join of two sides, each with what the join wants of it.
pub fn joined(
    alloc: Global,
    join: Joining,
    n: u32,
    left: Standing,
    right: Standing,
) -> Result<Standing, Memory>
    ensures plan { IfOk result (λ s. s.plan ≡ spec.join_plan n join left.plan left.place right.plan right.place) }
    ensures place { IfOk result (λ s. s.place ≡ spec.join_place join left.place right.place) }
{
    let (to_left, to_right) = (wanted(Side::Left, join.way), wanted(Side::Right, join.way));
    let first = brought(alloc, to_left, n, &join.keys.left, left.plan, &left.place);
    let second = brought(
        alloc,
        to_right,
        n,
        &join.keys.right,
        right.plan,
        &right.place,
    );
    let place = place_of(alloc, &join, left.place, right.place);
    let ((join, place), (first, second)) = both(both(Ok(join), place), both(first, second))?;
    stands(both(Plan::join(alloc, join, first, second), Ok(place)))
}
