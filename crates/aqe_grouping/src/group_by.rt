//! The keys of GROUP BY.

ghost use Rattle.std.specs.Prelude.{◌≡◌, ℕ, List, [], slice_get};
ghost use Rattle.aqe_base.specs.declared.status.AnalysisKind.TheVariants.{BadPosition};
ghost use Rattle.aqe_rules.specs.Expressions.{alone_of};
ghost use Rattle.aqe_rules.specs.Faults.{Says};
ghost use Rattle.aqe_rules.specs.Outcomes.{Outcome, refused, upon};
ghost use Rattle.aqe_rules.specs.Selects as spec;
ghost use Rattle.aqe_rules.specs.Selects.{with_aliases};
ghost use Rattle.aqe_rules.specs.Sources.{over, columns_of};
ghost use Rattle.aqe_rules.specs.declared.typed.Typed.{Typed};
ghost use Rattle.aqe_sources.specs.Seen.{items_seen};
ghost use Rattle.aqe_grouping.specs.Places.{IsAt, taken, from_0};
ghost use Rattle.aqe_grouping.specs.Spreads.{spreads_of};

use crate::chains::with_one;
use crate::select_list::{Landing, in_list};
use crate::spreading::list_spread;
use aqe_base::Listing;
use aqe_looks::number_alone;
use aqe_ordered::bad_position;
use aqe_rules::{AnalysisFault, Named, Typed};
use aqe_sources::FromItem;
use aqe_trees::{ItemTree, OrTree};
use aqe_typing::{value_over, value_with_aliases};
use std::alloc::Global;

/// A select list over its FROM.
#[derive(Drop)]
struct ListOver<'a> {
    has_from: bool,
    items: &'a [FromItem],
    columns: &'a [Named],
    list: &'a [ItemTree],
}

/// The place, from 0, of a position, which counts from 1.
#[tactic(auto, using(crate::proofs::PositionPlaces::place_steps))]
fn place_of(negative: bool, n: u64) -> Option<usize>
    ensures { result ≡ from_0 negative n }
{
    if negative {
        return None;
    }
    match n.checked_sub(1) {
        Some(place) => Some(place as usize),
        None => None,
    }
}

/// The value of what stands at the place of a position.
#[tactic(auto, using(crate::proofs::PositionPlaces::value_steps))]
fn value_there(
    alloc: Global,
    columns: &[Named],
    landing: Landing,
    negative: bool,
    n: u64,
) -> Result<Typed, AnalysisFault>
    ensures { (all : List (Outcome Typed)) (place : ℕ) → IsAt columns.now all place landing.entry
        → Says result (taken (slice_get all place) (refused BadPosition (spec.written negative n))) }
{
    match landing {
        Landing::Column(column) => {
            let value = column.value.copy(alloc)?;
            Ok(value)
        }
        Landing::Expression(value) => value_over(alloc, value, columns),
        Landing::Behind(_) => Err(bad_position(alloc, negative, n)),
    }
}

/// The value at a position in the list, no star of which is refused.
fn value_in_list(
    alloc: Global,
    columns: &[Named],
    list: &[ItemTree],
    negative: bool,
    n: u64,
) -> Result<Typed, AnalysisFault>
    ensures { Says result (upon (spec.at_position negative n (spreads_of columns.now list.now)) (spec.spread_value (over columns.now))) }
{
    match place_of(negative, n) {
        Some(place) => value_there(alloc, columns, in_list(columns, list, place), negative, n),
        None => Err(bad_position(alloc, negative, n)),
    }
}

/// The key that a position tells.
#[tactic(auto, using(crate::proofs::PositionPlaces::key_steps))]
fn key_at(alloc: Global, shown: &ListOver, negative: bool, n: u64) -> Result<Typed, AnalysisFault>
    requires { shown.now.columns.now ≡ columns_of (items_seen shown.now.items.now) }
    ensures { Says result (upon (spec.spread shown.now.has_from (items_seen shown.now.items.now) shown.now.list.now)
        (λ all. upon (spec.at_position negative n all) (spec.spread_value (over shown.now.columns.now)))) }
{
    match list_spread(alloc, shown.has_from, shown.items, shown.list) {
        Ok(()) => value_in_list(alloc, shown.columns, shown.list, negative, n),
        Err(fault) => Err(fault),
    }
}

/// The key of one expression of GROUP BY.
#[tactic(auto, using(crate::proofs::PositionPlaces::key_steps))]
fn key(alloc: Global, shown: &ListOver, value: &OrTree) -> Result<Typed, AnalysisFault>
    requires { shown.now.columns.now ≡ columns_of (items_seen shown.now.items.now) }
    ensures { Says result (spec.grouping_key shown.now.has_from (items_seen shown.now.items.now)
        (with_aliases shown.now.columns.now shown.now.list.now []) shown.now.list.now value.now (alone_of value.now)) }
{
    match number_alone(value) {
        Some((negative, n)) => key_at(alloc, shown, negative, n),
        None => value_with_aliases(alloc, value, shown.columns, shown.list),
    }
}

/// The keys of GROUP BY.
///
/// A number alone is a position in the select list with its stars spread out. In another expression a name is one of a
/// column before it is an alias.
pub fn grouping_keys(
    alloc: Global,
    has_from: bool,
    items: &[FromItem],
    columns: &[Named],
    list: &[ItemTree],
    group: &[OrTree],
) -> Result<Listing<Typed>, AnalysisFault>
    requires { columns.now ≡ columns_of (items_seen items.now) }
    ensures { Says result (spec.grouping_keys has_from (items_seen items.now)
        (with_aliases (columns_of (items_seen items.now)) list.now []) list.now group.now) }
{
    let shown = ListOver {
        has_from,
        items,
        columns,
        list,
    };
    let mut keys = Ok(Listing::new(alloc));
    'keys: for value in group {
        keys = with_one(keys, key(alloc, &shown, value));
    }
    keys
}
