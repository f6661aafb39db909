//! The rules that hold queries, in one cycle of calls.

ghost use Rattle.std.specs.Prelude.{MatchResult};
ghost use Rattle.aqe_trees.specs.Queries.{IsQuery, IsUnion, IsUnionRest, IsCore, IsFrom, IsJoined, IsSource};
ghost use Rattle.aqe_reader.specs.Reading.{Read, Refuses, Part, Taken, Never, IsRefusal};
ghost use Rattle.aqe_syntax.specs.Parts.{IsNested, IsSelected, IsStep};

use crate::boxes::{paren_of, query_of, select_of, step_of, union_of};
use crate::joins::{kind, no_join};
use crate::parts::{alias, clause, conditions, distinct, items, tail};
use crate::words::copied;
use aqe_base::JoinKind;
use aqe_reader::ReadFault;
use aqe_reader::cursor::{eat, expect, name};
use aqe_reader::pieces::{beside, longer, more_by, plain_more};
use aqe_trees::{CoreTree, JoinStep, JoinedTree, Key, QueryTree, SourceTree, Terminal, UnionTree};
use sqlite_items::{Boxed, Items};
use std::alloc::Global;

/// `union [ORDER BY sort {, sort}] [LIMIT number] [OFFSET number]`, and what stands behind it.
pub fn query(alloc: Global, terminals: &[Terminal]) -> Result<(QueryTree, &[Terminal]), ReadFault>
    ensures { MatchResult result
        (λ x. Read IsQuery 1 terminals.now x.0 x.1.now)
        (λ e. IsRefusal e → Refuses IsQuery 1 terminals.now) }
{
    let (tree, rest) = boxed_query(alloc, terminals)?;
    Ok((tree.into_inner(), rest))
}

/// The same, with the tree in a box.
#[cycle(query)]
fn boxed_query(
    alloc: Global,
    terminals: &[Terminal],
) -> Result<(Boxed<QueryTree>, &[Terminal]), ReadFault>
    ensures { MatchResult result
        (λ x. Read IsQuery 1 terminals.now x.0 x.1.now)
        (λ e. IsRefusal e → Refuses IsQuery 1 terminals.now) }
{
    let (body, rest) = union(alloc, terminals)?;
    let (body, (tail, rest)) = beside(body, tail(alloc, rest))?;
    Ok((query_of(alloc, body, tail)?, rest))
}

/// `core {UNION [ALL | DISTINCT] core}`
#[cycle(query)]
fn union(
    alloc: Global,
    terminals: &[Terminal],
) -> Result<(Boxed<UnionTree>, &[Terminal]), ReadFault>
    ensures { MatchResult result
        (λ x. Read IsUnion 4 terminals.now x.0 x.1.now)
        (λ e. IsRefusal e → Refuses IsUnion 4 terminals.now) }
{
    let (first, rest) = core(alloc, terminals)?;
    let (first, (cores, rest)) = beside(first, cores(alloc, rest))?;
    Ok((union_of(alloc, first, cores)?, rest))
}

/// `{UNION [ALL | DISTINCT] core}`
#[cycle(query)]
fn cores(
    alloc: Global,
    terminals: &[Terminal],
) -> Result<(Items<(bool, CoreTree)>, &[Terminal]), ReadFault>
    ensures { MatchResult result
        (λ x. Part IsUnionRest 4 terminals.now x.0 x.1.now)
        (λ e. IsRefusal e → Refuses IsUnionRest 4 terminals.now) }
{
    let mut rest = terminals;
    let mut cores = Items::new(alloc);
    'more: while let Some(after) = eat(rest, Key::Union) {
        let (once, after) = distinct(after, true);
        (cores, rest) = more_by(cores, once, core(alloc, after))?;
    }
    Ok((cores, rest))
}

/// `( query ) | SELECT ..`
#[cycle(query)]
fn core(alloc: Global, terminals: &[Terminal]) -> Result<(Boxed<CoreTree>, &[Terminal]), ReadFault>
    ensures { MatchResult result
        (λ x. Read IsCore 5 terminals.now x.0 x.1.now)
        (λ e. IsRefusal e → Refuses IsCore 5 terminals.now) }
{
    if let Some(after) = eat(terminals, Key::Open) {
        let (inner, rest) = nested(alloc, after)?;
        return Ok((paren_of(alloc, inner)?, rest));
    }
    let after = expect(terminals, Key::Select)?;
    select(alloc, after)
}

/// `query )`, behind the parenthesis that opens.
#[cycle(query)]
fn nested(
    alloc: Global,
    terminals: &[Terminal],
) -> Result<(Boxed<QueryTree>, &[Terminal]), ReadFault>
    ensures { MatchResult result
        (λ x. Taken IsNested terminals.now x.0 x.1.now)
        (λ e. IsRefusal e → Never IsNested terminals.now) }
{
    let (inner, behind) = boxed_query(alloc, terminals)?;
    let (inner, rest) = beside(inner, expect(behind, Key::Close))?;
    Ok((inner, rest))
}

/// What stands behind SELECT: `[ALL | DISTINCT] item {, item} [FROM ..] [WHERE or] [GROUP BY or {, or}] [HAVING or]`
#[cycle(query)]
fn select(
    alloc: Global,
    terminals: &[Terminal],
) -> Result<(Boxed<CoreTree>, &[Terminal]), ReadFault>
    ensures { MatchResult result
        (λ x. Read IsSelected 5 terminals.now x.0 x.1.now)
        (λ e. IsRefusal e → Refuses IsSelected 5 terminals.now) }
{
    let (once, rest) = distinct(terminals, false);
    let (columns, rest) = items(alloc, rest)?;
    let (columns, (sources, rest)) = beside(columns, from(alloc, rest))?;
    let ((columns, sources), (parts, rest)) = beside((columns, sources), conditions(alloc, rest))?;
    Ok((select_of(alloc, once, columns, sources, parts)?, rest))
}

/// `[FROM joined {, joined}]`
#[cycle(query)]
fn from(
    alloc: Global,
    terminals: &[Terminal],
) -> Result<(Items<JoinedTree>, &[Terminal]), ReadFault>
    ensures { MatchResult result
        (λ x. Part IsFrom 8 terminals.now x.0 x.1.now)
        (λ e. IsRefusal e → Refuses IsFrom 8 terminals.now) }
{
    let Some(start) = eat(terminals, Key::From) else {
        return Ok((Items::new(alloc), terminals));
    };
    let (mut sources, mut rest) = plain_more(Items::new(alloc), joined(alloc, start))?;
    'more: while let Some(after) = eat(rest, Key::Comma) {
        (sources, rest) = plain_more(sources, joined(alloc, after))?;
    }
    Ok((sources, rest))
}

/// `source {[kind] JOIN source [ON or]}`
#[cycle(query)]
fn joined(alloc: Global, terminals: &[Terminal]) -> Result<(JoinedTree, &[Terminal]), ReadFault>
    ensures { MatchResult result
        (λ x. Read IsJoined 10 terminals.now x.0 x.1.now)
        (λ e. IsRefusal e → Refuses IsJoined 10 terminals.now) }
{
    let (mut first, mut rest) = source(alloc, terminals)?;
    let mut steps = Items::new(alloc);
    'more: while let Some((how, after)) = kind(rest) {
        (first, steps, rest) = longer(first, steps, step(alloc, how, after))?;
    }
    let ((first, steps), _) = beside((first, steps), no_join(rest))?;
    Ok((JoinedTree::new(first, steps), rest))
}

/// `source [ON or]`, behind the JOIN of this kind.
#[cycle(query)]
fn step(
    alloc: Global,
    how: JoinKind,
    terminals: &[Terminal],
) -> Result<(Boxed<JoinStep>, &[Terminal]), ReadFault>
    ensures { MatchResult result
        (λ x. Read (IsStep how) 11 terminals.now x.0 x.1.now)
        (λ e. IsRefusal e → Refuses (IsStep how) 11 terminals.now) }
{
    let (next, behind) = source(alloc, terminals)?;
    let (next, (on, left)) = beside(next, clause(alloc, behind, Key::On))?;
    Ok((step_of(alloc, how, next, on)?, left))
}

/// `name [[AS] name] | ( query ) [[AS] name]`
#[cycle(query)]
fn source(alloc: Global, terminals: &[Terminal]) -> Result<(SourceTree, &[Terminal]), ReadFault>
    ensures { MatchResult result
        (λ x. Read IsSource 12 terminals.now x.0 x.1.now)
        (λ e. IsRefusal e → Refuses IsSource 12 terminals.now) }
{
    if let Some(after) = eat(terminals, Key::Open) {
        let (inner, behind) = nested(alloc, after)?;
        let (query, (alias, rest)) = beside(inner, alias(alloc, behind))?;
        return Ok((SourceTree::Paren { query, alias }, rest));
    }
    let Some((table, _, behind)) = name(terminals) else {
        return Err(ReadFault::at(terminals));
    };
    let name = copied(alloc, table)?;
    let (name, (alias, rest)) = beside(name, alias(alloc, behind))?;
    Ok((SourceTree::Table { name, alias }, rest))
}
