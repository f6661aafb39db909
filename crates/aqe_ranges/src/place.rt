//! The place of a row by range.

ghost use Rattle.std.specs.Prelude.{◌≡◌, ◌<◌, ◌≤◌, ◌^◌, filter, length, IfOk};
ghost use Rattle.std.specs.List.Sorted.{IsSortedBy};
ghost use Rattle.aqe_ranges.specs.Order.{range_place, key_less};
ghost use Rattle.aqe_values.specs.Bounds.{row_limit};

use aqe_base::Memory;
use aqe_logical::SortKeys;
use aqe_sorting::{compare_keys, key_row};
use aqe_values::{Row, Value};
use std::alloc::Global;

/// How many bounds come strictly before a key row.
fn bounds_before(keys: &SortKeys, bounds: &[Row], key: &[Value]) -> usize
    requires { IsSortedBy (key_less keys.now) bounds.now }
    ensures value { result ≡ length (filter (λ bound. key_less keys.now bound key.now) bounds.now) }
    ensures within { result ≤ length bounds.now }
{
    bounds.partition_point(|bound| compare_keys(keys, bound.values(), key).is_lt())
}

/// The part of `n` that a row belongs to by its range.
pub(crate) fn place_by_range(
    alloc: Global,
    keys: &SortKeys,
    bounds: &[Row],
    n: u32,
    row: &Row,
) -> Result<u32, Memory>
    requires keys { length keys.now ≤ row_limit }
    requires order { IsSortedBy (key_less keys.now) bounds.now }
    requires parts { length bounds.now < n }
    ensures value { IfOk result (λ place. place ≡ range_place keys.now bounds.now row.now) }
    ensures bound { IfOk result (λ place. place < n) }
{
    let key = key_row(alloc, keys, row)?;
    Ok(bounds_before(keys, bounds, key.values()) as u32)
}
