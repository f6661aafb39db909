//! The packing of partitions into groups, from the left.

ghost use Rattle.std.specs.Prelude.{◌<◌, ◌≡◌, ◌≤◌, ◌^◌, IfOk, length, sum};
ghost use Rattle.aqe_coalesce.specs.Coalesced.{Coalesced, IsFull, IsWithin};
ghost use Rattle.aqe_coalesce.specs.Target.{target_of};

use crate::Groups;
use aqe_base::Memory;
use std::alloc::Global;

/// The size in bytes that groups are to come to: the total's share for each of `n` tasks, rounded up, at most `advisory`, at least `minimum`.
pub fn target(total: u128, n: u32, advisory: u128, minimum: u128) -> u128
    requires { 1 ≤ n }
    ensures { result ≡ target_of total n advisory minimum }
{
    total.div_ceil(u128::from(n)).min(advisory).max(minimum)
}

/// Where the group that begins at a partition ends: before the first partition with which it would come to more than the target.
fn end_of_group(sizes: &[u128], start: usize, target: u128) -> usize
    requires inside { start < length sizes.now }
    requires total { sum sizes.now < 2 ^ 110 }
    ensures forward { start < result }
    ensures end { result ≤ length sizes.now }
    ensures within { IsWithin sizes.now target (start, result) }
    ensures full { IsFull sizes.now target (start, result) }
{
    let mut filled = sizes[start];
    let mut end = start + 1;
    'partitions: while end < sizes.len() && filled + sizes[end] <= target {
        filled += sizes[end];
        end += 1;
    }
    end
}

/// Puts partitions that stand next to one another into groups of at most the target, where a single one is not larger already.
/// Takes time linear in the number of partitions.
pub fn cuts(alloc: Global, sizes: &[u128], target: u128) -> Result<Groups, Memory>
    requires count { length sizes.now < 2 ^ 32 }
    requires total { sum sizes.now < 2 ^ 110 }
    ensures { IfOk result (λ groups. Coalesced sizes.now target groups) }
{
    let mut groups = Groups::new(alloc);
    let mut start = 0;
    'groups: while start < sizes.len() {
        let end = end_of_group(sizes, start, target);
        groups.push((start as u32, end as u32))?;
        start = end;
    }
    Ok(groups)
}
