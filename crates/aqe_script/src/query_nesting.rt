//! The nesting of queries and statements, measured as that of expressions.

ghost use Rattle.std.specs.Prelude.{◌≡◌, ◌<◌, ◌≤◌, IsTrue, ◌↔◌, max, map};
ghost use Rattle.aqe_script.specs.Depth.{depth_limit};
ghost use Rattle.aqe_script.specs.Measured.{Measured};
ghost use Rattle.aqe_script.specs.Nesting.{chain_depth, deepest};
ghost use Rattle.aqe_script.specs.QueryLevels as spec;

use crate::depth::DEPTH_LIMIT;
use crate::nesting::{above, list, or, over};
use crate::parts::{joined_parts, query_parts, select_parts, sort_parts, step_parts, union_parts};
use aqe_trees::{
    CoreTree, ItemTree, JoinStep, JoinedTree, OrTree, QueryTree, SelectTree, SortTree, SourceTree,
    Stmt, UnionTree,
};

/// The nesting of a clause that may be missing.
fn clause(value: &Option<OrTree>, room: usize) -> Option<usize>
    ensures { Measured (spec.clause_nesting value.now) room result }
{
    match value {
        Some(value) => or(value, room),
        None => Some(0),
    }
}

/// The nesting of an item.
fn item(tree: &ItemTree, room: usize) -> Option<usize>
    ensures { Measured (spec.item_nesting tree.now) room result }
{
    match tree {
        ItemTree::All => Some(0),
        ItemTree::AllOf(_) => Some(0),
        ItemTree::One { value, .. } => or(value, room),
    }
}

/// The greatest nesting of the items.
fn items(trees: &[ItemTree], room: usize) -> Option<usize>
    ensures { Measured (deepest (map spec.item_nesting trees.now)) room result }
{
    let mut depth = 0usize;
    'items: for next in trees {
        let Some(one) = item(next, room) else {
            return None;
        };
        depth = depth.max(one);
    }
    Some(depth)
}

/// The nesting of a key of ORDER BY.
fn sort(tree: &SortTree, room: usize) -> Option<usize>
    ensures { Measured (spec.sort_nesting tree.now) room result }
{
    let (value, _, _) = sort_parts(tree);
    or(value, room)
}

/// The greatest nesting of the keys of ORDER BY.
fn order(sorts: &[SortTree], room: usize) -> Option<usize>
    ensures { Measured (deepest (map spec.sort_nesting sorts.now)) room result }
{
    let mut depth = 0usize;
    'sorts: for next in sorts {
        let Some(one) = sort(next, room) else {
            return None;
        };
        depth = depth.max(one);
    }
    Some(depth)
}

/// The nesting of a query.
#[cycle(query)]
fn query(tree: &QueryTree, room: usize) -> Option<usize>
    ensures { Measured (spec.query_nesting tree.now) room result }
{
    let (body, sorts, _, _) = query_parts(tree);
    let body = union(body, room)?;
    let sorts = order(sorts, room)?;
    Some(body.max(sorts))
}

/// The nesting of the cores of UNION.
#[cycle(query)]
fn union(tree: &UnionTree, room: usize) -> Option<usize>
    ensures { Measured (spec.union_nesting tree.now) room result }
{
    let (first, rest) = union_parts(tree);
    let mut depth = core(first, room)?;
    'more: for next in rest {
        let Some(one) = core(&next.1, room) else {
            return None;
        };
        let Some(more) = over(depth, one, room) else {
            return None;
        };
        depth = more;
    }
    Some(depth)
}

/// The nesting of what UNION joins.
#[cycle(query)]
fn core(tree: &CoreTree, room: usize) -> Option<usize>
    ensures { Measured (spec.core_nesting tree.now) room result }
{
    match tree {
        CoreTree::Paren(inner) => {
            let depth = query(inner.get(), room)?;
            above(depth, room)
        }
        CoreTree::Select(parts) => {
            let depth = select(parts, room)?;
            above(depth, room)
        }
    }
}

/// The nesting of what stands behind SELECT.
#[cycle(query)]
fn select(tree: &SelectTree, room: usize) -> Option<usize>
    ensures { Measured (spec.select_nesting tree.now) room result }
{
    let (_, columns, sources, filter, keys, having) = select_parts(tree);
    let columns = items(columns, room)?;
    let sources = from(sources, room)?;
    let filter = clause(filter, room)?;
    let keys = list(keys, room)?;
    let having = clause(having, room)?;
    Some(columns.max(sources.max(filter.max(keys.max(having)))))
}

/// The nesting of FROM.
#[cycle(query)]
fn from(sources: &[JoinedTree], room: usize) -> Option<usize>
    ensures { Measured (spec.from_depth (map spec.joined_nesting sources.now)) room result }
{
    let Some((first, rest)) = sources.split_first() else {
        return Some(0);
    };
    let mut depth = joined(first, room)?;
    'more: for next in rest {
        let Some(one) = joined(next, room) else {
            return None;
        };
        let Some(more) = over(depth, one, room) else {
            return None;
        };
        depth = more;
    }
    Some(depth)
}

/// The nesting of a source and what is joined to it.
#[cycle(query)]
fn joined(tree: &JoinedTree, room: usize) -> Option<usize>
    ensures { Measured (spec.joined_nesting tree.now) room result }
{
    let (first, rest) = joined_parts(tree);
    let mut depth = source(first, room)?;
    'more: for next in rest {
        let Some(one) = step(next, room) else {
            return None;
        };
        let Some(more) = over(depth, one, room) else {
            return None;
        };
        depth = more;
    }
    Some(depth)
}

/// The nesting of the right side of a join.
#[cycle(query)]
fn step(tree: &JoinStep, room: usize) -> Option<usize>
    ensures { Measured (spec.step_nesting tree.now) room result }
{
    let (_, next, on) = step_parts(tree);
    let next = source(next, room)?;
    let on = clause(on, room)?;
    Some(next.max(on))
}

/// The nesting of what FROM reads.
#[cycle(query)]
fn source(tree: &SourceTree, room: usize) -> Option<usize>
    ensures { Measured (spec.source_nesting tree.now) room result }
{
    match tree {
        SourceTree::Table { .. } => Some(0),
        SourceTree::Paren { query: inner, .. } => {
            let depth = query(inner.get(), room)?;
            above(depth, room)
        }
    }
}

/// Whether the nesting of the statement is above 128.
pub fn is_too_nested(statement: &Stmt) -> bool
    ensures { IsTrue result ↔ (depth_limit < spec.nesting statement.now) }
{
    match statement {
        Stmt::Query(tree) => query(tree, DEPTH_LIMIT).is_none(),
        Stmt::CreateTable(_) => false,
        Stmt::Set(_) => false,
    }
}
