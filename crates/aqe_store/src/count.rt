//! Counts that never fall.

ghost use Rattle.std.specs.Prelude.{◌≤◌, ◌+◌};
ghost use Rattle.aqe_store.specs.Causes.{Rose};

/// Adds one to a count, which stays at its most once it is there.
pub(crate) fn raise(count: &mut u64)
    ensures rose { Rose count.old count.new }
    ensures stays { count.old ≤ count.new }
    ensures once { count.new ≤ count.old + 1 }
{
    *count = count.saturating_add(1);
}
