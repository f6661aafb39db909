//! The choice, and the tests that it goes by.

ghost use Rattle.std.specs.Prelude.{◌≡◌, int_le, nat_le, option_map, pos};
ghost use Rattle.std.specs.List.{list_all};
ghost use Rattle.aqe_join_switch.specs.Choice.{
  choice,
  fits_broadcast,
  is_hashable,
  is_held,
  is_small,
  many_empty,
  prefers_hash,
  held_side,
  hashed_side,
  right_first,
  seen,
  small_side,
  smaller,
  total_of,
};

use crate::{JoinChoice, JoinRule, SideSizes, SizeSource};
use aqe_base::{JoinKind, Side, can_build};

/// Whether most partitions hold nothing: some are above 0, but fewer than `ratio_thousandths` thousandths of them.
pub fn many_empty(parts: &[u128], ratio_thousandths: u64) -> bool
    ensures { result ≡ many_empty parts.now ratio_thousandths }
{
    let filled = parts.iter().filter(|size| **size > 0).count();
    filled > 0 && 1000 * (filled as u128) < u128::from(ratio_thousandths) * (parts.len() as u128)
}

/// Whether a size is at most a threshold. No size is at most a negative one.
fn is_within(size: u128, threshold: i64) -> bool
    ensures { result ≡ int_le (pos size) threshold }
{
    threshold >= 0 && size <= u128::from(threshold.unsigned_abs())
}

/// Whether a side is small enough to be broadcast, whichever kind the join has.
fn is_small(sizes: SideSizes, rule: &JoinRule) -> bool
    ensures { result ≡ is_small (seen sizes.entry) rule.now }
{
    match sizes.source {
        SizeSource::Estimate => is_within(sizes.total, rule.first_threshold),
        SizeSource::Shuffle => {
            is_within(sizes.total, rule.adaptive_threshold)
                && !many_empty(sizes.parts, rule.ratio_thousandths)
        }
        SizeSource::Broadcast => false,
    }
}

/// Whether a side may be broadcast, and is small enough. It is not asked of a side that is broadcast already.
pub fn fits_broadcast(kind: JoinKind, side: Side, sizes: SideSizes, rule: &JoinRule) -> bool
    ensures { result ≡ fits_broadcast kind side (seen sizes.entry) rule.now }
{
    can_build(kind, side) && is_small(sizes, rule)
}

/// Whether each size is at most a limit.
fn are_within(sizes: &[u128], limit: u128) -> bool
    ensures { result ≡ list_all (λ size. nat_le size limit) sizes.now }
{
    sizes.iter().all(|size| *size <= limit)
}

/// Whether each partition of a side was measured and is small enough to be hashed.
fn is_hashable(sizes: SideSizes, rule: &JoinRule) -> bool
    ensures { result ≡ is_hashable (seen sizes.entry) rule.now }
{
    match sizes.source {
        SizeSource::Shuffle => are_within(sizes.parts, rule.local_map),
        SizeSource::Estimate | SizeSource::Broadcast => false,
    }
}

/// Whether a side may be hashed, and each of its partitions is small enough for that.
pub fn prefers_hash(kind: JoinKind, side: Side, sizes: SideSizes, rule: &JoinRule) -> bool
    ensures { result ≡ prefers_hash kind side (seen sizes.entry) rule.now }
{
    can_build(kind, side) && rule.advisory <= rule.local_map && is_hashable(sizes, rule)
}

/// Whether a side may be built, and is held by a broadcast stage.
fn is_held(kind: JoinKind, side: Side, sizes: SideSizes) -> bool
    ensures { result ≡ is_held kind side (seen sizes.entry) }
{
    can_build(kind, side) && sizes.source == SizeSource::Broadcast
}

/// The side that serves, the right before the left.
fn right_first(left: bool, right: bool) -> Option<Side>
    ensures { result ≡ right_first left right }
{
    if right {
        Some(Side::Right)
    } else if left {
        Some(Side::Left)
    } else {
        None
    }
}

/// The size of a side, 0 where nothing is known of it.
fn total_of(sizes: Option<SideSizes>) -> u128
    ensures { result ≡ total_of (option_map seen sizes.entry) }
{
    sizes.map_or(0, |sizes| sizes.total)
}

/// Which sides serve, and the size of each.
#[derive(Clone, Copy)]
struct Serving {
    left: bool,
    right: bool,
    left_total: u128,
    right_total: u128,
}

/// The smaller of the sides that serve, the right where both are as large.
fn smaller(serving: Serving) -> Option<Side>
    ensures { result ≡ smaller serving.left serving.right serving.left_total serving.right_total }
{
    let left_is_smaller = serving.left && serving.left_total < serving.right_total;
    right_first(serving.left, serving.right && !left_is_smaller)
}

/// The side that is held by a broadcast stage and may be built.
fn held_side(kind: JoinKind, left: Option<SideSizes>, right: Option<SideSizes>) -> Option<Side>
    ensures { result ≡ held_side kind (option_map seen left.entry) (option_map seen right.entry) }
{
    right_first(
        left.is_some_and(|sizes| is_held(kind, Side::Left, sizes)),
        right.is_some_and(|sizes| is_held(kind, Side::Right, sizes)),
    )
}

/// The side that is broadcast for its size.
fn small_side(
    kind: JoinKind,
    left: Option<SideSizes>,
    right: Option<SideSizes>,
    rule: &JoinRule,
) -> Option<Side>
    ensures { result ≡ small_side kind (option_map seen left.entry) (option_map seen right.entry) rule.now }
{
    smaller(Serving {
        left: left.is_some_and(|sizes| fits_broadcast(kind, Side::Left, sizes, rule)),
        right: right.is_some_and(|sizes| fits_broadcast(kind, Side::Right, sizes, rule)),
        left_total: total_of(left),
        right_total: total_of(right),
    })
}

/// The side that is hashed, partition by partition.
fn hashed_side(
    kind: JoinKind,
    left: Option<SideSizes>,
    right: Option<SideSizes>,
    rule: &JoinRule,
) -> Option<Side>
    ensures { result ≡ hashed_side kind (option_map seen left.entry) (option_map seen right.entry) rule.now }
{
    smaller(Serving {
        left: left.is_some_and(|sizes| prefers_hash(kind, Side::Left, sizes, rule)),
        right: right.is_some_and(|sizes| prefers_hash(kind, Side::Right, sizes, rule)),
        left_total: total_of(left),
        right_total: total_of(right),
    })
}

/// The way of a join of the kind, by what is known of its sides. It takes no memory.
pub fn choose(
    kind: JoinKind,
    left: Option<SideSizes>,
    right: Option<SideSizes>,
    rule: &JoinRule,
) -> JoinChoice
    ensures { result ≡ choice kind (option_map seen left.entry) (option_map seen right.entry) rule.now }
{
    if let Some(side) = held_side(kind, left, right) {
        return JoinChoice::Broadcast(side);
    }
    if let Some(side) = small_side(kind, left, right, rule) {
        return JoinChoice::Broadcast(side);
    }
    match hashed_side(kind, left, right, rule) {
        Some(side) => JoinChoice::ShuffledHash(side),
        None => JoinChoice::SortMerge,
    }
}
