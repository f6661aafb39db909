//! First plans of small queries, with ample memory: the trees follow from the table of planning.

ghost use Rattle.std.specs.Prelude.{◌≡◌, length, IfOk};
ghost use Rattle.aqe_checks.specs.Planning.{HasFirstPlan};

use crate::plan_texts::plan_text;
use aqe_base::Memory;
use aqe_boxes::both;
use aqe_expr::Expr;
use aqe_logical::{AggCall, AggCalls, AggFun, Exprs, Logical};
use aqe_physical::{Estimate, Estimates, Plan};
use aqe_planner::first_plan;
use aqe_settings::Settings;
use aqe_values::Schema;
use std::alloc::Global;
use std::test::Fail;

/// The columns of these digits.
fn columns(alloc: Global, digits: &[u8]) -> Result<Exprs, Memory> {
    let mut list = Exprs::new(alloc);
    for digit in digits {
        list.push(Expr::Column(u32::from(digit.wrapping_sub(b'0'))))?;
    }
    Ok(list)
}

/// A count of the first column.
fn a_count(alloc: Global) -> Result<AggCalls, Memory> {
    let mut calls = AggCalls::new(alloc);
    calls.push(AggCall {
        fun: AggFun::Count,
        arg: Expr::Column(0),
    })?;
    Ok(calls)
}

/// The rows of a query of which the first column is true.
#[tactic(auto, using(crate::proofs::Planning::filter_planned))]
fn filtered(alloc: Global, child: Logical) -> Result<Logical, Memory>
    requires { HasFirstPlan 2 child }
    ensures { IfOk result (λ query. HasFirstPlan 2 query) }
{
    Logical::filter(alloc, Expr::Column(0), child)
}

/// Columns of a query. Planning looks at no schema, so it is left empty.
#[tactic(auto, using(crate::proofs::Planning::project_planned))]
fn projected(alloc: Global, items: Exprs, child: Logical) -> Result<Logical, Memory>
    requires { HasFirstPlan 2 child }
    ensures { IfOk result (λ query. HasFirstPlan 2 query) }
{
    Logical::project(alloc, items, Schema::new(alloc), child)
}

/// A count for each group of a query.
#[tactic(auto, using(crate::proofs::Planning::aggregate_planned))]
fn grouped(alloc: Global, keys: Exprs, calls: AggCalls, child: Logical) -> Result<Logical, Memory>
    requires { HasFirstPlan 2 child }
    ensures { IfOk result (λ query. HasFirstPlan 2 query) }
{
    Logical::aggregate(alloc, keys, calls, Schema::new(alloc), child)
}

/// Columns of a query, by their digits.
fn projected_to(alloc: Global, digits: &[u8], child: Logical) -> Result<Logical, Memory>
    requires { HasFirstPlan 2 child }
    ensures { IfOk result (λ query. HasFirstPlan 2 query) }
{
    let (items, child) = both(columns(alloc, digits), Ok(child))?;
    projected(alloc, items, child)
}

/// A count for each group of a query by columns, by their digits.
fn grouped_by(alloc: Global, digits: &[u8], child: Logical) -> Result<Logical, Memory>
    requires { HasFirstPlan 2 child }
    ensures { IfOk result (λ query. HasFirstPlan 2 query) }
{
    let parts = both(columns(alloc, digits), a_count(alloc));
    let ((keys, calls), child) = both(parts, Ok(child))?;
    grouped(alloc, keys, calls, child)
}

/// The table of the number, or where it has none the one row.
#[tactic(auto, using(crate::proofs::Planning::one_row_planned, crate::proofs::Planning::scan_planned))]
fn leaf(alloc: Global, word: &str) -> Logical
    ensures { HasFirstPlan 2 result }
{
    match word {
        "t0" => Logical::Scan {
            table: 0,
            schema: Schema::new(alloc),
        },
        "t1" => Logical::Scan {
            table: 1,
            schema: Schema::new(alloc),
        },
        _ => Logical::OneRow,
    }
}

/// One step more: `f` filters, `p` takes the columns behind it, and `g` groups by them.
fn step(alloc: Global, word: &str, child: Logical) -> Result<Logical, Memory>
    requires { HasFirstPlan 2 child }
    ensures { IfOk result (λ query. HasFirstPlan 2 query) }
{
    match word.as_bytes().split_first() {
        Some((b'p', digits)) => projected_to(alloc, digits, child),
        Some((b'g', digits)) => grouped_by(alloc, digits, child),
        _ => filtered(alloc, child),
    }
}

/// The query of a leaf and steps over it, with words between blanks.
#[tactic(auto, using(crate::proofs::Planning::one_row_planned))]
fn query_of(alloc: Global, text: &str) -> Result<Logical, Memory>
    ensures { IfOk result (λ query. HasFirstPlan 2 query) }
{
    let mut query = Logical::OneRow;
    'words: for (i, word) in text.split(' ').enumerate() {
        query = if i == 0 {
            leaf(alloc, word)
        } else {
            step(alloc, word, query)?
        };
    }
    Ok(query)
}

/// Table 0 has three files, and table 1 has one.
fn estimates(alloc: Global) -> Result<Estimates, Memory> {
    let mut list = Estimates::new(alloc);
    list.push(Estimate {
        bytes: 30,
        files: 3,
    })?;
    list.push(Estimate { bytes: 8, files: 1 })?;
    Ok(list)
}

/// A plan as a text, where it is there.
fn shown(alloc: Global, plan: Result<Plan, Memory>) -> Result<String, Fail> {
    let plan = plan?;
    plan_text(alloc, &plan)
}

/// The first plan of a query as a text.
#[tactic(auto, using(crate::proofs::Planning::built_of, crate::proofs::Planning::reached_of, crate::proofs::Planning::limits_of))]
fn plan_shown(
    alloc: Global,
    query: &Logical,
    estimates: &Estimates,
    settings: &Settings,
) -> Result<String, Fail>
    requires query { HasFirstPlan 2 query.now }
    requires tables { length estimates.now ≡ 2 }
{
    shown(alloc, first_plan(alloc, query, estimates, settings))
}

/// The same of a query by its words.
fn planned(alloc: Global, words: &str, settings: &Settings) -> Result<String, Fail> {
    let estimates = estimates(alloc)?;
    if estimates.len() != 2 {
        return Err(Fail::new("other tables"));
    }
    let query = query_of(alloc, words)?;
    plan_shown(alloc, &query, &estimates, settings)
}

/// The default settings, but with so many parts of an exchange.
fn with_parts(number: u32) -> Settings {
    Settings {
        shuffle_partitions: number,
        ..Settings::defaults()
    }
}

#[test]
fn rows_and_groups_of_a_table_are_planned(rt: HostRuntime) -> Result<(), Fail> {
    let settings = with_parts(4);
    for (query, lines) in [
        ("one", "OneRow\n"),
        ("t0", "Scan 0 3\n"),
        ("t0 f p10", "Project #1, #0\n  Filter #0\n    Scan 0 3\n"),
        (
            "one g",
            "FinalAgg keys=0 calls(count(#0))\n  PartialAgg keys() calls(count(#0))\n    OneRow\n",
        ),
        (
            "t0 g",
            "FinalAgg keys=0 calls(count(#0))\n  Exchange single\n    PartialAgg keys() calls(count(#0))\n      Scan 0 3\n",
        ),
        (
            "t1 g",
            "FinalAgg keys=0 calls(count(#0))\n  Exchange single\n    PartialAgg keys() calls(count(#0))\n      Scan 1 1\n",
        ),
        (
            "t0 f g1",
            "FinalAgg keys=1 calls(count(#0))\n  Exchange hash(#0) n=4\n    PartialAgg keys(#1) calls(count(#0))\n      Filter #0\n        Scan 0 3\n",
        ),
        (
            "t1 g20",
            "FinalAgg keys=2 calls(count(#0))\n  Exchange hash(#0, #1) n=4\n    PartialAgg keys(#2, #0) calls(count(#0))\n      Scan 1 1\n",
        ),
    ] {
        assert_eq!(rt; planned(rt.alloc(), query, &settings)?.as_str(), lines);
    }
    assert_eq!(rt;
        planned(rt.alloc(), "t1 g1", &Settings::defaults())?.as_str(),
        "FinalAgg keys=1 calls(count(#0))\n  Exchange hash(#0) n=200\n    PartialAgg keys(#1) calls(count(#0))\n      Scan 1 1\n"
    );
    Ok(())
}

#[test]
fn groups_over_groups_are_planned(rt: HostRuntime) -> Result<(), Fail> {
    let settings = with_parts(4);
    for (query, lines) in [
        // by the same key, and so with a filter between both
        (
            "t0 g1 g0",
            "FinalAgg keys=1 calls(count(#0))\n  PartialAgg keys(#0) calls(count(#0))\n    FinalAgg keys=1 calls(count(#0))\n      Exchange hash(#0) n=4\n        PartialAgg keys(#1) calls(count(#0))\n          Scan 0 3\n",
        ),
        (
            "t0 g1 f g0",
            "FinalAgg keys=1 calls(count(#0))\n  PartialAgg keys(#0) calls(count(#0))\n    Filter #0\n      FinalAgg keys=1 calls(count(#0))\n        Exchange hash(#0) n=4\n          PartialAgg keys(#1) calls(count(#0))\n            Scan 0 3\n",
        ),
        // by more keys, by the same ones in the other order, and by fewer
        (
            "t0 g1 g01",
            "FinalAgg keys=2 calls(count(#0))\n  PartialAgg keys(#0, #1) calls(count(#0))\n    FinalAgg keys=1 calls(count(#0))\n      Exchange hash(#0) n=4\n        PartialAgg keys(#1) calls(count(#0))\n          Scan 0 3\n",
        ),
        (
            "t0 g01 g10",
            "FinalAgg keys=2 calls(count(#0))\n  PartialAgg keys(#1, #0) calls(count(#0))\n    FinalAgg keys=2 calls(count(#0))\n      Exchange hash(#0, #1) n=4\n        PartialAgg keys(#0, #1) calls(count(#0))\n          Scan 0 3\n",
        ),
        (
            "t0 g01 g0",
            "FinalAgg keys=1 calls(count(#0))\n  Exchange hash(#0) n=4\n    PartialAgg keys(#0) calls(count(#0))\n      FinalAgg keys=2 calls(count(#0))\n        Exchange hash(#0, #1) n=4\n          PartialAgg keys(#0, #1) calls(count(#0))\n            Scan 0 3\n",
        ),
        // without keys
        (
            "t0 g1 g",
            "FinalAgg keys=0 calls(count(#0))\n  Exchange single\n    PartialAgg keys() calls(count(#0))\n      FinalAgg keys=1 calls(count(#0))\n        Exchange hash(#0) n=4\n          PartialAgg keys(#1) calls(count(#0))\n            Scan 0 3\n",
        ),
        (
            "t0 g g0",
            "FinalAgg keys=1 calls(count(#0))\n  PartialAgg keys(#0) calls(count(#0))\n    FinalAgg keys=0 calls(count(#0))\n      Exchange single\n        PartialAgg keys() calls(count(#0))\n          Scan 0 3\n",
        ),
    ] {
        assert_eq!(rt; planned(rt.alloc(), query, &settings)?.as_str(), lines);
    }
    Ok(())
}

#[test]
fn a_projection_keeps_a_key_or_not(rt: HostRuntime) -> Result<(), Fail> {
    let settings = with_parts(4);
    for (query, lines) in [
        (
            "t0 g1 p10 g1",
            "FinalAgg keys=1 calls(count(#0))\n  PartialAgg keys(#1) calls(count(#0))\n    Project #1, #0\n      FinalAgg keys=1 calls(count(#0))\n        Exchange hash(#0) n=4\n          PartialAgg keys(#1) calls(count(#0))\n            Scan 0 3\n",
        ),
        (
            "t0 g1 p1 g0",
            "FinalAgg keys=1 calls(count(#0))\n  Exchange hash(#0) n=4\n    PartialAgg keys(#0) calls(count(#0))\n      Project #1\n        FinalAgg keys=1 calls(count(#0))\n          Exchange hash(#0) n=4\n            PartialAgg keys(#1) calls(count(#0))\n              Scan 0 3\n",
        ),
    ] {
        assert_eq!(rt; planned(rt.alloc(), query, &settings)?.as_str(), lines);
    }
    Ok(())
}
