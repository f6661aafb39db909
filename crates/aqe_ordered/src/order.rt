//! The keys of an ORDER BY, and the hidden columns that they want.

ghost use Rattle.std.specs.Prelude.{◌≡◌, ◌+◌, length, IfOk};
ghost use Rattle.aqe_expr.specs.declared.expr.Expr.{Column};
ghost use Rattle.aqe_rules.specs.Outcomes.{Outcome, upon};
ghost use Rattle.aqe_rules.specs.Plans as spec;
ghost use Rattle.aqe_ordered.specs.Orders as orders;
ghost use Rattle.aqe_ordered.specs.Orders.{Keys, order_seen, sorting_seen};
ghost use Rattle.aqe_sources.specs.Given.{Gives};
ghost use Rattle.aqe_sources.specs.Seen.{SaysSeen};

use crate::hiding::Hiding;
use crate::sorting::{Sorting, sorting_of};
use aqe_base::{Listing, Memory};
use aqe_expr::Expr;
use aqe_logical::{SortKey, SortKeys};
use aqe_rules::{AnalysisFault, Named, Typed};
use aqe_trees::SortTree;
use aqe_unions::column_at;
use aqe_values::SortWay;
use std::alloc::Global;

/// The keys of an ORDER BY, and its hidden columns.
#[derive(Drop)]
pub struct Order {
    /// The keys, over the output columns with the hidden ones behind.
    pub keys: SortKeys,
    /// The hidden columns, from left to right.
    pub hidden: Listing<Typed>,
}

/// A key of an ORDER BY.
fn key(expr: Expr, sort: &SortTree) -> SortKey
    ensures { result ≡ spec.key expr sort.now }
{
    SortKey {
        expr,
        way: SortWay {
            descending: sort.descending,
            nulls_last: sort.nulls_last,
        },
    }
}

/// The order with a key more that is over the output columns.
fn with_shown(order: Order, expr: Expr, sort: &SortTree) -> Result<Order, Memory>
    ensures { IfOk result (λ o. order_seen o ≡ orders.with_shown (order_seen order) expr sort.now) }
{
    let mut order = order;
    order.keys.push(key(expr, sort))?;
    Ok(order)
}

/// The hidden column behind so many others.
fn hidden_column(first: usize, others: usize) -> Result<Expr, Memory>
    ensures { IfOk result (λ e. e ≡ Column (first + others)) }
{
    match first.checked_add(others) {
        Some(place) => column_at(place),
        None => Err(Memory),
    }
}

/// The order with a key more, which is a hidden column behind the others.
fn with_hidden(first: usize, order: Order, value: Typed, sort: &SortTree) -> Result<Order, Memory>
    ensures { IfOk result (λ o. order_seen o ≡ orders.with_hidden first (order_seen order) value sort.now) }
{
    let mut order = order;
    let column = hidden_column(first, order.hidden.len())?;
    order.keys.push(key(column, sort))?;
    order.hidden.push(value)?;
    Ok(order)
}

/// The order with a key more.
fn with_key(first: usize, order: Order, sorting: Sorting, sort: &SortTree) -> Result<Order, Memory>
    ensures { IfOk result (λ o. order_seen o ≡ orders.with_key first (order_seen order) (sorting_seen sorting) sort.now) }
{
    match sorting {
        Sorting::Shown(expr) => with_shown(order, expr, sort),
        Sorting::Hidden(value) => with_hidden(first, order, value, sort),
    }
}

/// The order with the key of one expression more, where that is not refused.
#[tactic(auto, using(crate::proofs::OrderSteps::order_steps))]
fn with_sorting(
    first: usize,
    order: Order,
    next: Result<Sorting, AnalysisFault>,
    sort: &SortTree,
) -> Result<Order, AnalysisFault>
    ensures { (outcome : Outcome spec.Sorting) → SaysSeen sorting_seen next outcome
        → SaysSeen order_seen result (orders.with_sorting first (order_seen order) outcome sort.now) }
{
    match next {
        Ok(sorting) => {
            let order = with_key(first, order, sorting, sort)?;
            Ok(order)
        }
        Err(fault) => Err(fault),
    }
}

/// The order so far, where it is not refused, with the key of one expression more.
fn with_next<H: Hiding>(
    alloc: Global,
    hiding: &H,
    first: usize,
    outputs: &[Named],
    so_far: Result<Order, AnalysisFault>,
    sort: &SortTree,
) -> Result<Order, AnalysisFault>
    ensures { (outcome : Outcome Keys) → SaysSeen order_seen so_far outcome
        → SaysSeen order_seen result (orders.with_next (H.rule hiding.now) first outputs.now outcome sort.now) }
{
    let order = so_far?;
    with_sorting(
        first,
        order,
        sorting_of(alloc, hiding, &sort.value, outputs),
        sort,
    )
}

/// The keys of an ORDER BY over output columns, and its hidden columns.
///
/// A number alone is a position, counted from 1. Another expression is over the output columns where each of its names is a
/// plain name that one of them has and no aggregate function is called in it; else it is a hidden column. The hidden columns
/// are numbered from `first`.
pub fn order_of<H: Hiding>(
    alloc: Global,
    hiding: &H,
    first: usize,
    outputs: &[Named],
    sorts: &[SortTree],
) -> Result<Order, AnalysisFault>
    ensures { SaysSeen order_seen result (orders.order_of (H.rule hiding.now) first outputs.now sorts.now) }
{
    let mut so_far = Ok(Order {
        keys: SortKeys::new(alloc),
        hidden: Listing::new(alloc),
    });
    'sorts: for sort in sorts {
        so_far = with_next(alloc, hiding, first, outputs, so_far, sort);
    }
    so_far
}
