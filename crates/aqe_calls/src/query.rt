//! The aggregate calls of a query.

ghost use Rattle.std.specs.Prelude.{◌≡◌, OnOk, IfOk, [], flat_map};
ghost use Rattle.aqe_rules.specs.Selects as spec;
ghost use Rattle.aqe_rules.specs.Selects.{with_aliases};
ghost use Rattle.aqe_rules.specs.Sources.{over};
ghost use Rattle.aqe_typing.specs.Calls.{calls_seen};
ghost use Rattle.aqe_calls.specs.Added.{Added};
ghost use Rattle.aqe_calls.specs.Calls.{place_of};

use crate::calls::or;
use crate::scope::Scope;
use aqe_base::{Listing, Memory};
use aqe_rules::Named;
use aqe_trees::{ItemTree, OrTree, SortTree};
use aqe_typing::Call;
use std::alloc::Global;

/// Adds the calls of an item of the select list.
#[tactic(auto, using(crate::proofs::CallLevels::query_steps))]
fn item(
    alloc: Global,
    item: &ItemTree,
    scope: &Scope,
    calls: &mut Listing<Call>,
) -> Result<(), Memory>
    ensures { OnOk result (Added calls.old calls.new (spec.calls_of_item (place_of scope.now) item.now)) }
{
    match item {
        ItemTree::One { value, .. } => or(alloc, value, scope, calls),
        ItemTree::All => Ok(()),
        ItemTree::AllOf(_) => Ok(()),
    }
}

/// Adds the calls of the select list.
fn items(
    alloc: Global,
    list: &[ItemTree],
    scope: &Scope,
    calls: &mut Listing<Call>,
) -> Result<(), Memory>
    ensures { OnOk result (Added calls.old calls.new (flat_map (spec.calls_of_item (place_of scope.now)) list.now)) }
{
    'items: for next in list {
        item(alloc, next, scope, calls)?;
    }
    Ok(())
}

/// Adds the calls of HAVING.
#[tactic(auto, using(crate::proofs::CallLevels::query_steps))]
fn condition(
    alloc: Global,
    having: &Option<OrTree>,
    scope: &Scope,
    calls: &mut Listing<Call>,
) -> Result<(), Memory>
    ensures { OnOk result (Added calls.old calls.new (spec.calls_of_having (place_of scope.now) having.now)) }
{
    match having {
        Some(value) => or(alloc, value, scope, calls),
        None => Ok(()),
    }
}

/// Adds the calls of ORDER BY.
fn keys(
    alloc: Global,
    sorts: &[SortTree],
    scope: &Scope,
    calls: &mut Listing<Call>,
) -> Result<(), Memory>
    ensures { OnOk result (Added calls.old calls.new (spec.calls_of_sorts (place_of scope.now) sorts.now)) }
{
    'sorts: for next in sorts {
        or(alloc, &next.value, scope, calls)?;
    }
    Ok(())
}

/// The aggregate calls of a query that is grouped, in the order of their first use: select list, HAVING, ORDER BY. Equal ones
/// come once.
///
/// A call whose argument is refused, or has a type that its function does not take, is none. In HAVING an argument may be
/// an alias of the select list, where no column has its name.
pub fn calls_of(
    alloc: Global,
    columns: &[Named],
    list: &[ItemTree],
    having: &Option<OrTree>,
    sorts: &[SortTree],
) -> Result<Listing<Call>, Memory>
    ensures { IfOk result (λ calls. calls_seen calls
        ≡ spec.calls_of (over columns.now) (with_aliases columns.now list.now []) list.now having.now sorts.now) }
{
    let mut calls = Listing::new(alloc);
    let plain = Scope { columns, list: &[] };
    items(alloc, list, &plain, &mut calls)?;
    let with_aliases = Scope { columns, list };
    condition(alloc, having, &with_aliases, &mut calls)?;
    keys(alloc, sorts, &plain, &mut calls)?;
    Ok(calls)
}
