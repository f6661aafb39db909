//! The stars of a select list, each of which may be refused.

ghost use Rattle.std.specs.Prelude.{◌≡◌, List, filter};
ghost use Rattle.std.specs.List.{list_any};
ghost use Rattle.aqe_rules.specs.Readings as readings;
ghost use Rattle.aqe_rules.specs.Selects as spec;
ghost use Rattle.aqe_rules.specs.Sources.{columns_of};
ghost use Rattle.aqe_rules.specs.declared.names.Named.{Named};
ghost use Rattle.aqe_sources.specs.Seen.{item_seen, items_seen, SaysSeen};
ghost use Rattle.aqe_grouping.specs.Spreads.{spread_of, spreads_of};

use aqe_base::AnalysisKind;
use aqe_rules::{AnalysisFault, alike, refused};
use aqe_sources::FromItem;
use aqe_trees::ItemTree;
use aqe_values::Text;
use std::alloc::Global;

/// Whether the item has the name.
fn is_named(name: &Text, item: &FromItem) -> bool
    ensures { result ≡ spec.is_named name.now (item_seen item.now) }
{
    match &item.name {
        Some(own) => alike(own, name),
        None => false,
    }
}

/// Whether an item has the name.
pub fn is_any_named(name: &Text, items: &[FromItem]) -> bool
    ensures { result ≡ list_any (λ item. spec.is_named name.now (item_seen item)) items.now }
{
    items.iter().any(|item| is_named(name, item))
}

/// `*`, which there must be a FROM for.
#[tactic(auto, using(crate::proofs::SpreadSteps::star_steps))]
fn star(alloc: Global, has_from: bool) -> Result<(), AnalysisFault>
    ensures { (columns : List Named) → SaysSeen (λ _. columns) result (spec.all_columns has_from columns) }
{
    if has_from {
        Ok(())
    } else {
        Err(refused(alloc, AnalysisKind::NoSuchColumn, "*"))
    }
}

/// `t.*`, which an item must have the name of.
#[tactic(auto, using(crate::proofs::SpreadSteps::star_steps))]
fn star_of(alloc: Global, items: &[FromItem], name: &Text) -> Result<(), AnalysisFault>
    ensures { SaysSeen (λ _. filter (readings.is_of name.now) (columns_of (items_seen items.now))) result
        (spec.columns_of_all name.now (items_seen items.now)) }
{
    if is_any_named(name, items) {
        Ok(())
    } else {
        Err(refused(alloc, AnalysisKind::NoSuchTable, name.as_str()))
    }
}

/// An item of a select list, where its star is not refused.
#[tactic(auto, using(crate::proofs::SpreadSteps::item_steps))]
fn item_spread(
    alloc: Global,
    has_from: bool,
    items: &[FromItem],
    item: &ItemTree,
) -> Result<(), AnalysisFault>
    ensures { SaysSeen (λ _. spread_of (columns_of (items_seen items.now)) item.now) result
        (spec.spread_item has_from (items_seen items.now) item.now) }
{
    match item {
        ItemTree::All => star(alloc, has_from),
        ItemTree::AllOf(name) => star_of(alloc, items, name),
        ItemTree::One { .. } => Ok(()),
    }
}

/// A select list, where no star in it is refused; else the refusal of the first that is.
pub(crate) fn list_spread(
    alloc: Global,
    has_from: bool,
    items: &[FromItem],
    list: &[ItemTree],
) -> Result<(), AnalysisFault>
    ensures { SaysSeen (λ _. spreads_of (columns_of (items_seen items.now)) list.now) result
        (spec.spread has_from (items_seen items.now) list.now) }
{
    let mut rest = list;
    'list: while let Some((item, more)) = rest.split_first() {
        item_spread(alloc, has_from, items, item)?;
        rest = more;
    }
    Ok(())
}
