//! Physical plans as texts: a line for each node, two spaces further in for each depth. Only the forms that first plans have so far are written.

use aqe_expr::Expr;
use aqe_logical::{AggCall, AggCalls, AggFun, Exprs};
use aqe_physical::{Plan, Target};
use std::alloc::{AllocError, Global};
use std::test::Fail;

fn expr_text(alloc: Global, expr: &Expr) -> Result<String, AllocError> {
    match expr {
        Expr::Column(number) => format!(in alloc; "#{number}"),
        _ => String::from_str(alloc, "?"),
    }
}

fn exprs_text(alloc: Global, exprs: &Exprs) -> Result<String, AllocError> {
    let mut text = String::new(alloc);
    for (i, expr) in exprs.slice().iter().enumerate() {
        if i > 0 {
            text.push_str(", ")?;
        }
        let one = expr_text(alloc, expr)?;
        text.push_str(one.as_str())?;
    }
    Ok(text)
}

fn name_of(fun: AggFun) -> &'static str {
    match fun {
        AggFun::Count => "count",
        AggFun::Sum => "sum",
        AggFun::Min => "min",
        AggFun::Max => "max",
    }
}

fn call_text(alloc: Global, call: &AggCall) -> Result<String, AllocError> {
    let name = name_of(call.fun);
    let argument = expr_text(alloc, &call.arg)?;
    format!(in alloc; "{name}({argument})")
}

fn calls_text(alloc: Global, calls: &AggCalls) -> Result<String, AllocError> {
    let mut text = String::new(alloc);
    for (i, call) in calls.slice().iter().enumerate() {
        if i > 0 {
            text.push_str(", ")?;
        }
        let one = call_text(alloc, call)?;
        text.push_str(one.as_str())?;
    }
    Ok(text)
}

fn target_line(alloc: Global, to: &Target) -> Result<String, AllocError> {
    match to {
        Target::Hash { keys, n } => {
            let keys = exprs_text(alloc, keys)?;
            format!(in alloc; "Exchange hash({keys}) n={n}")
        }
        Target::Single => String::from_str(alloc, "Exchange single"),
        _ => String::from_str(alloc, "Exchange ?"),
    }
}

fn partial_line(alloc: Global, keys: &Exprs, calls: &AggCalls) -> Result<String, AllocError> {
    let keys = exprs_text(alloc, keys)?;
    let calls = calls_text(alloc, calls)?;
    format!(in alloc; "PartialAgg keys({keys}) calls({calls})")
}

fn final_line(alloc: Global, keys: u32, calls: &AggCalls) -> Result<String, AllocError> {
    let calls = calls_text(alloc, calls)?;
    format!(in alloc; "FinalAgg keys={keys} calls({calls})")
}

fn filter_line(alloc: Global, cond: &Expr) -> Result<String, AllocError> {
    let cond = expr_text(alloc, cond)?;
    format!(in alloc; "Filter {cond}")
}

fn project_line(alloc: Global, items: &Exprs) -> Result<String, AllocError> {
    let items = exprs_text(alloc, items)?;
    format!(in alloc; "Project {items}")
}

/// The line of a node, without those below it.
fn line_of(alloc: Global, plan: &Plan) -> Result<String, AllocError> {
    match plan {
        Plan::OneRow => String::from_str(alloc, "OneRow"),
        Plan::Scan { table, files } => format!(in alloc; "Scan {table} {files}"),
        Plan::Filter { cond, .. } => filter_line(alloc, cond),
        Plan::Project { items, .. } => project_line(alloc, items),
        Plan::Exchange { to, .. } => target_line(alloc, to),
        Plan::PartialAgg { keys, calls, .. } => partial_line(alloc, keys, calls),
        Plan::FinalAgg { keys, calls, .. } => final_line(alloc, *keys, calls),
        _ => String::from_str(alloc, "?"),
    }
}

fn add_line(alloc: Global, plan: &Plan, depth: u32, text: &mut String) -> Result<(), AllocError> {
    for _ in 0..depth {
        text.push_str("  ")?;
    }
    let line = line_of(alloc, plan)?;
    text.push_str(line.as_str())?;
    text.push('\n')
}

fn add_lines(alloc: Global, plan: &Plan, depth: u32, text: &mut String) -> Result<(), AllocError> {
    add_line(alloc, plan, depth, text)?;
    let below = depth.wrapping_add(1);
    match plan {
        Plan::Filter { child, .. } => add_lines(alloc, child.get(), below, text),
        Plan::Project { child, .. } => add_lines(alloc, child.get(), below, text),
        Plan::Exchange { child, .. } => add_lines(alloc, child.get(), below, text),
        Plan::PartialAgg { child, .. } => add_lines(alloc, child.get(), below, text),
        Plan::FinalAgg { child, .. } => add_lines(alloc, child.get(), below, text),
        _ => Ok(()),
    }
}

/// The lines of a plan.
pub(crate) fn plan_text(alloc: Global, plan: &Plan) -> Result<String, Fail> {
    let mut text = String::new(alloc);
    add_lines(alloc, plan, 0, &mut text)?;
    Ok(text)
}
