//! Trees of queries, built out of the readers' frames: those are alive while a query further in is read.

ghost use Rattle.std.specs.Prelude.{◌≡◌, IfOk};
ghost use Rattle.aqe_trees.specs.Shapes.{query_tree, union_tree, select_tree, join_step};
ghost use Rattle.aqe_trees.specs.declared.query.CoreTree;

use crate::parts::{Conditions, Tail};
use aqe_base::JoinKind;
use aqe_trees::{
    CoreTree, ItemTree, JoinStep, JoinedTree, OrTree, QueryTree, SelectTree, SourceTree, UnionTree,
};
use sqlite_items::{Boxed, Items};
use std::alloc::{AllocError, Global};

/// A body with what stands behind it.
#[inline(never)]
pub(crate) fn query_of(
    alloc: Global,
    body: Boxed<UnionTree>,
    tail: Tail,
) -> Result<Boxed<QueryTree>, AllocError>
    ensures { IfOk result (λ t. t ≡ query_tree body tail.0 tail.1 tail.2) }
{
    let (sorts, limit, offset) = tail;
    Boxed::new(
        alloc,
        QueryTree::new(body.into_inner(), sorts, limit, offset),
    )
}

/// The union of the cores.
#[inline(never)]
pub(crate) fn union_of(
    alloc: Global,
    first: Boxed<CoreTree>,
    rest: Items<(bool, CoreTree)>,
) -> Result<Boxed<UnionTree>, AllocError>
    ensures { IfOk result (λ t. t ≡ union_tree first rest) }
{
    Boxed::new(alloc, UnionTree::new(first.into_inner(), rest))
}

/// The value in the box, where there is one.
fn unboxed(value: Option<Boxed<OrTree>>) -> Option<OrTree>
    ensures { result ≡ value }
{
    match value {
        Some(value) => Some(value.into_inner()),
        None => None,
    }
}

/// `SELECT [ALL | DISTINCT] item {, item} [FROM ..] [WHERE or] [GROUP BY or {, or}] [HAVING or]`
#[inline(never)]
pub(crate) fn select_of(
    alloc: Global,
    once: bool,
    items: Items<ItemTree>,
    from: Items<JoinedTree>,
    conditions: Conditions,
) -> Result<Boxed<CoreTree>, AllocError>
    ensures { IfOk result (λ t. t ≡ CoreTree.Select (select_tree once items from conditions.0 conditions.1 conditions.2)) }
{
    let (filter, keys, having) = conditions;
    let (filter, having) = (unboxed(filter), unboxed(having));
    let select = SelectTree::new(once, items, from, filter, keys, having);
    Boxed::new(alloc, CoreTree::Select(select))
}

/// A query in parentheses.
#[inline(never)]
pub(crate) fn paren_of(
    alloc: Global,
    query: Boxed<QueryTree>,
) -> Result<Boxed<CoreTree>, AllocError>
    ensures { IfOk result (λ t. t ≡ CoreTree.Paren query) }
{
    Boxed::new(alloc, CoreTree::Paren(query))
}

/// A source that is joined, and its condition.
#[inline(never)]
pub(crate) fn step_of(
    alloc: Global,
    kind: JoinKind,
    source: SourceTree,
    on: Option<Boxed<OrTree>>,
) -> Result<Boxed<JoinStep>, AllocError>
    ensures { IfOk result (λ t. t ≡ join_step kind source on) }
{
    Boxed::new(alloc, JoinStep::new(kind, source, unboxed(on)))
}
