//! The clauses of a SELECT from WHERE to HAVING, each by the rule of its own.
//!
//! The plan is handed on beside what comes of the clauses behind WHERE, so that it is alive at no check.

ghost use Rattle.std.specs.Prelude.{◌≡◌, IfOk};
ghost use Rattle.aqe_rules.specs.Sources.{columns_of};
ghost use Rattle.aqe_sources.specs.Seen.{items_seen, SaysSeen};
ghost use Rattle.aqe_select.specs.Clauses.{selected_over, parts_of};
ghost use Rattle.aqe_select.specs.Reading as spec;
ghost use Rattle.aqe_select.specs.Reading.{read_seen};

use crate::clauses::Clauses;
use crate::having::having;
use crate::plans::Selected;
use aqe_base::Listing;
use aqe_grouping::grouping_keys;
use aqe_logical::Logical;
use aqe_outputs::{Building, Outputs, Shown, output_columns};
use aqe_rules::{AnalysisFault, Typed};
use aqe_sources::{both_of, kept};
use aqe_typing::Place;
use std::alloc::Global;

/// What is read behind WHERE.
#[derive(Drop)]
pub(crate) struct Read {
    /// The keys of the groups.
    pub keys: Listing<Typed>,
    pub outputs: Outputs,
    pub having: Option<Typed>,
}

/// The select list and HAVING over the keys of the groups.
fn over_keys(
    alloc: Global,
    clauses: &Clauses,
    is_grouped: bool,
    shown: &Shown,
    keys: Listing<Typed>,
) -> Result<Read, AnalysisFault>
    requires { shown.now.columns ≡ columns_of (items_seen shown.now.items) }
    ensures { SaysSeen read_seen result (spec.over_keys clauses.now is_grouped shown.now keys) }
{
    let building = Building {
        is_grouped,
        keys: keys.slice(),
        columns: shown.columns.slice(),
    };
    let place = Place {
        columns: shown.columns.slice(),
        list: clauses.list,
        calls: shown.calls.slice(),
    };
    let outputs = output_columns(alloc, shown, &building, clauses.list);
    let having = having(alloc, clauses.having, &place, &building);
    with_keys(keys, both_of(outputs, having))
}

/// The keys with what is read over them, where that is there.
fn with_keys(
    keys: Listing<Typed>,
    both: Result<(Outputs, Option<Typed>), AnalysisFault>,
) -> Result<Read, AnalysisFault>
    ensures { result ≡ spec.with_keys keys both }
{
    match both {
        Ok((outputs, having)) => Ok(Read {
            keys,
            outputs,
            having,
        }),
        Err(fault) => Err(fault),
    }
}

/// GROUP BY, the select list and HAVING.
#[tactic(auto, using(crate::proofs::ReadingSteps::keys_steps))]
fn behind_where(
    alloc: Global,
    clauses: &Clauses,
    is_grouped: bool,
    shown: &Shown,
) -> Result<Read, AnalysisFault>
    requires { shown.now.columns ≡ columns_of (items_seen shown.now.items) }
    ensures { SaysSeen read_seen result (spec.read_of clauses.now is_grouped shown.now) }
{
    let items = shown.items.slice();
    let columns = shown.columns.slice();
    let (list, group) = (clauses.list, clauses.group);
    match grouping_keys(alloc, shown.has_from, items, columns, list, group) {
        Ok(keys) => over_keys(alloc, clauses, is_grouped, shown, keys),
        Err(fault) => Err(fault),
    }
}

/// What all clauses come to, where both parts are there.
fn selected(
    distinct: bool,
    is_grouped: bool,
    both: Result<(Logical, Read), AnalysisFault>,
) -> Result<Selected, AnalysisFault>
    ensures { result ≡ spec.selected_of distinct is_grouped both }
{
    match both {
        Ok((below, read)) => Ok(Selected {
            below,
            is_grouped,
            keys: read.keys,
            outputs: read.outputs,
            having: read.having,
            distinct,
        }),
        Err(fault) => Err(fault),
    }
}

/// What the clauses come to over the plan of FROM.
pub(crate) fn parts(
    alloc: Global,
    clauses: &Clauses,
    is_grouped: bool,
    shown: &Shown,
    plan: Logical,
) -> Result<Selected, AnalysisFault>
    requires { shown.now.columns ≡ columns_of (items_seen shown.now.items) }
    ensures says { SaysSeen (selected_over shown.now.columns) result (parts_of clauses.now is_grouped shown.now plan) }
    ensures as_grouped { IfOk result (λ s. s.is_grouped ≡ is_grouped) }
{
    let columns = shown.columns.slice();
    let below = kept(alloc, clauses.filter, columns, clauses.list, plan);
    let read = behind_where(alloc, clauses, is_grouped, shown);
    selected(clauses.distinct, is_grouped, both_of(below, read))
}
