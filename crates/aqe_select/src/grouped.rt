//! Whether a SELECT is grouped.

ghost use Rattle.std.specs.Prelude.{◌≡◌};
ghost use Rattle.std.specs.List.{list_any};
ghost use Rattle.aqe_rules.specs.Selects as spec;

use aqe_looks::has_aggregate;
use aqe_script::parts::sort_parts;
use aqe_trees::{ItemTree, OrTree, SortTree};

/// Whether the item of a select list calls an aggregate function.
fn item_has_aggregate(item: &ItemTree) -> bool
    ensures { result ≡ spec.item_has_aggregate item.now }
{
    match item {
        ItemTree::One { value, .. } => has_aggregate(value),
        ItemTree::All | ItemTree::AllOf(_) => false,
    }
}

/// Whether the key of an ORDER BY calls an aggregate function.
fn sort_has_aggregate(sort: &SortTree) -> bool
    ensures { result ≡ spec.sort_has_aggregate sort.now }
{
    let (value, _, _) = sort_parts(sort);
    has_aggregate(value)
}

/// Whether there are none.
pub(crate) fn is_empty<T>(items: &[T]) -> bool
    ensures { result ≡ spec.is_empty items.now }
{
    items.split_first().is_none()
}

/// Whether an item of the select list calls an aggregate function.
fn list_has_aggregate(list: &[ItemTree]) -> bool
    ensures { result ≡ list_any spec.item_has_aggregate list.now }
{
    list.iter().any(|item| item_has_aggregate(item))
}

/// Whether a key of the ORDER BY calls an aggregate function.
fn order_has_aggregate(sorts: &[SortTree]) -> bool
    ensures { result ≡ list_any spec.sort_has_aggregate sorts.now }
{
    sorts.iter().any(|sort| sort_has_aggregate(sort))
}

/// Whether a query is grouped: it has GROUP BY, HAVING, or an aggregate call in its select list or ORDER BY.
pub(crate) fn is_grouped(
    list: &[ItemTree],
    group: &[OrTree],
    having: &Option<OrTree>,
    sorts: &[SortTree],
) -> bool
    ensures { result ≡ spec.is_grouped list.now group.now having.now sorts.now }
{
    if !is_empty(group) {
        return true;
    }
    if having.is_some() {
        return true;
    }
    if list_has_aggregate(list) {
        return true;
    }
    order_has_aggregate(sorts)
}
