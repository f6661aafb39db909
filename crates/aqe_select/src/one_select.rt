//! A SELECT over its FROM, clause by clause.

ghost use Rattle.std.specs.Prelude.{◌≡◌};
ghost use Rattle.aqe_rules.specs.Faults.{Says};
ghost use Rattle.aqe_rules.specs.Outcomes.{Outcome, upon};
ghost use Rattle.aqe_rules.specs.Sources.{From, from_of};
ghost use Rattle.aqe_typing.specs.Calls.{calls_seen};
ghost use Rattle.aqe_sources.specs.Seen.{from_seen, items_seen, SaysSeen};
ghost use Rattle.aqe_select.specs.Clauses as spec;
ghost use Rattle.aqe_select.specs.Clauses.{select_of};
ghost use Rattle.aqe_select.specs.Orders.{planned};
ghost use Rattle.aqe_select.specs.Scopes.{calls_over, Shows};

use crate::clauses::Clauses;
use crate::grouped::{is_empty, is_grouped};
use crate::orders::{ordered, unordered};
use crate::plans::Selected;
use crate::reading::parts;
use crate::scope::shown_to;
use aqe_logical::Logical;
use aqe_outputs::Shown;
use aqe_rules::AnalysisFault;
use aqe_sources::FromPlan;
use std::alloc::Global;

/// The plan of a SELECT, once its clauses are read.
fn planned(
    alloc: Global,
    clauses: &Clauses,
    shown: Shown,
    selected: Selected,
) -> Result<Logical, AnalysisFault>
    requires { calls_seen shown.calls ≡ calls_over selected.is_grouped shown.columns clauses.now clauses.now.sorts.now }
    ensures { Says result (planned clauses.now shown selected) }
{
    if is_empty(clauses.sorts) {
        unordered(alloc, shown, selected)
    } else {
        ordered(alloc, clauses, shown, selected)
    }
}

/// The plan of a SELECT over the plan of FROM and what it shows.
fn over_shown(
    alloc: Global,
    clauses: &Clauses,
    is_grouped: bool,
    shown: Shown,
    plan: Logical,
) -> Result<Logical, AnalysisFault>
    requires as_grouped { is_grouped ≡ spec.is_grouped clauses.now }
    requires shows { Shows clauses.now is_grouped shown.items shown }
    ensures { Says result (select_of clauses.now (from_of plan (items_seen shown.items))) }
{
    match parts(alloc, clauses, is_grouped, &shown, plan) {
        Ok(selected) => planned(alloc, clauses, shown, selected),
        Err(fault) => Err(fault),
    }
}

/// The plan of a SELECT over its FROM.
fn select_over(alloc: Global, clauses: &Clauses, from: FromPlan) -> Result<Logical, AnalysisFault>
    ensures { Says result (select_of clauses.now (from_seen from)) }
{
    let FromPlan { plan, items } = from;
    let is_grouped = is_grouped(clauses.list, clauses.group, clauses.having, clauses.sorts);
    match shown_to(alloc, clauses, is_grouped, items) {
        Ok(shown) => over_shown(alloc, clauses, is_grouped, shown, plan),
        Err(fault) => Err(fault),
    }
}

/// The plan of a SELECT whose FROM is known or refused.
pub fn select(
    alloc: Global,
    clauses: &Clauses,
    from: Result<FromPlan, AnalysisFault>,
) -> Result<Logical, AnalysisFault>
    ensures { (outcome : Outcome From) → SaysSeen from_seen from outcome →
        Says result (upon outcome (select_of clauses.now)) }
{
    let from = from?;
    select_over(alloc, clauses, from)
}
