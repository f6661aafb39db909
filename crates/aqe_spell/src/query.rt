//! Queries, one function for each rule of the grammar.

ghost use Rattle.std.specs.Prelude.{[], ◌∷◌, List, OnOk};
ghost use Rattle.aqe_trees.specs.declared.query.JoinStep.{JoinStep};
ghost use Rattle.aqe_trees.specs.Queries.{IsQuery, IsUnion, IsCore, IsSelect, IsFrom, IsJoined, IsJoinedRest, IsSource};
ghost use Rattle.aqe_phrases.specs.Written.{Spelled, Going};

use crate::query_leaf::{alias, all, bound, clause, distinct, group, items, kind, order};
use aqe_phrases::word::{fixed, name};
use aqe_script::parts::{joined_parts, query_parts, select_parts, step_parts, union_parts};
use aqe_trees::{
    CoreTree, JoinStep, JoinedTree, Key, QueryTree, SelectTree, SourceTree, UnionTree,
};
use std::alloc::AllocError;

/// Writes a query.
#[cycle(query)]
pub(crate) fn query(out: &mut Vec<u8>, tree: &QueryTree) -> Result<(), AllocError>
    ensures { OnOk result (Spelled IsQuery tree.now out.old.items out.new.items) }
{
    let (body, sorts, limit, offset) = query_parts(tree);
    union(out, body)?;
    order(out, sorts)?;
    bound(out, Key::Limit, limit)?;
    bound(out, Key::Offset, offset)?;
    Ok(())
}

/// Writes the cores of UNION.
#[cycle(query)]
fn union(out: &mut Vec<u8>, tree: &UnionTree) -> Result<(), AllocError>
    ensures { OnOk result (Spelled IsUnion tree.now out.old.items out.new.items) }
{
    let (first, rest) = union_parts(tree);
    core(out, first)?;
    'more: for next in rest {
        fixed(out, Key::Union)?;
        all(out, next.0)?;
        core(out, &next.1)?;
    }
    Ok(())
}

/// Writes what UNION joins.
#[cycle(query)]
fn core(out: &mut Vec<u8>, tree: &CoreTree) -> Result<(), AllocError>
    ensures { OnOk result (Spelled IsCore tree.now out.old.items out.new.items) }
{
    match tree {
        CoreTree::Paren(inner) => {
            fixed(out, Key::Open)?;
            query(out, inner.get())?;
            fixed(out, Key::Close)?;
            Ok(())
        }
        CoreTree::Select(parts) => {
            fixed(out, Key::Select)?;
            select(out, parts)?;
            Ok(())
        }
    }
}

/// Writes what stands behind SELECT.
#[cycle(query)]
fn select(out: &mut Vec<u8>, tree: &SelectTree) -> Result<(), AllocError>
    ensures { OnOk result (Spelled IsSelect tree.now out.old.items out.new.items) }
{
    let (once, columns, sources, filter, keys, having) = select_parts(tree);
    distinct(out, once)?;
    items(out, columns)?;
    from(out, sources)?;
    clause(out, Key::Where, filter)?;
    group(out, keys)?;
    clause(out, Key::Having, having)?;
    Ok(())
}

/// Writes FROM and what it reads.
#[cycle(query)]
fn from(out: &mut Vec<u8>, sources: &[JoinedTree]) -> Result<(), AllocError>
    ensures { OnOk result (Spelled IsFrom sources.now out.old.items out.new.items) }
{
    match sources.split_first() {
        None => Ok(()),
        Some((first, rest)) => {
            fixed(out, Key::From)?;
            joined(out, first)?;
            'more: for next in rest {
                fixed(out, Key::Comma)?;
                joined(out, next)?;
            }
            Ok(())
        }
    }
}

/// Writes a source and what is joined to it.
#[cycle(query)]
fn joined(out: &mut Vec<u8>, tree: &JoinedTree) -> Result<(), AllocError>
    ensures { OnOk result (Spelled IsJoined tree.now out.old.items out.new.items) }
{
    let (first, rest) = joined_parts(tree);
    source(out, first)?;
    'more: for next in rest {
        step(out, next)?;
    }
    Ok(())
}

/// Writes a join.
#[cycle(query)]
fn step(out: &mut Vec<u8>, tree: &JoinStep) -> Result<(), AllocError>
    ensures { OnOk result ((rest : List JoinStep)
        → Going IsJoinedRest (tree.now ∷ rest) rest out.old.items out.new.items) }
{
    let (which, next, on) = step_parts(tree);
    kind(out, which)?;
    source(out, next)?;
    clause(out, Key::On, on)?;
    Ok(())
}

/// Writes what FROM reads.
#[cycle(query)]
fn source(out: &mut Vec<u8>, tree: &SourceTree) -> Result<(), AllocError>
    ensures { OnOk result (Spelled IsSource tree.now out.old.items out.new.items) }
{
    match tree {
        SourceTree::Table {
            name: table,
            alias: named,
        } => {
            name(out, table)?;
            alias(out, named)?;
            Ok(())
        }
        SourceTree::Paren {
            query: inner,
            alias: named,
        } => {
            fixed(out, Key::Open)?;
            query(out, inner.get())?;
            fixed(out, Key::Close)?;
            alias(out, named)?;
            Ok(())
        }
    }
}
