//! Where the rows of a join stand, and whether a side stands by just its keys.

ghost use Rattle.std.specs.Prelude.{◌≡◌, IfOk, map};
ghost use Rattle.std.specs.Cmp.Lexicographic.{pointwise};
ghost use Rattle.aqe_columns.specs.Replacing as replacing;
ghost use Rattle.aqe_fitting.specs.Placing as spec;
ghost use Rattle.aqe_join_keys.specs.Keys.{columns_from};
ghost use Rattle.aqe_placing.specs.Columns.{key_by};
ghost use Rattle.aqe_rules.specs.Equality.{same_expr as same};

use crate::placing::column_at;
use aqe_base::{JoinKind, Memory};
use aqe_columns::replaced;
use aqe_expr::Expr;
use aqe_join_rows::JoinKeys;
use aqe_logical::{Exprs, Placement, SortKey, SortKeys, copy_exprs};
use aqe_same::same_expr;
use std::alloc::Global;

/// So many columns in order, the first of which is named.
#[tactic(auto, using(crate::proofs::Behind::columns_more))]
pub fn columns_from(alloc: Global, first: u32, count: u32) -> Result<Exprs, Memory>
    ensures { IfOk result (λ columns. columns ≡ columns_from first count) }
{
    let mut columns = Exprs::new(alloc);
    'places: for place in 0..count {
        let column = column_at(first as usize + place as usize)?;
        columns.push(column)?;
    }
    Ok(columns)
}

/// An expression with each of its columns replaced.
fn behind(alloc: Global, columns: &[Expr], expr: &Expr) -> Result<Expr, Memory>
    ensures { IfOk result (λ e. e ≡ replacing.replaced columns.now expr.now) }
{
    match replaced(alloc, expr, columns) {
        Ok(expr) => Ok(expr),
        Err(_) => Err(Memory),
    }
}

/// Expressions with each of their columns replaced.
#[tactic(auto, using(crate::proofs::Behind::mapped_more))]
fn exprs_behind(alloc: Global, columns: &[Expr], exprs: &[Expr]) -> Result<Exprs, Memory>
    ensures { IfOk result (λ made. made ≡ map (replacing.replaced columns.now) exprs.now) }
{
    let mut made = Exprs::new(alloc);
    'exprs: for expr in exprs {
        let expr = behind(alloc, columns, expr)?;
        made.push(expr)?;
    }
    Ok(made)
}

/// Sort keys with each of their columns replaced.
#[tactic(auto, using(crate::proofs::Behind::mapped_more))]
fn sort_keys_behind(alloc: Global, columns: &[Expr], keys: &[SortKey]) -> Result<SortKeys, Memory>
    ensures { IfOk result (λ made. made ≡ map (key_by (replacing.replaced columns.now)) keys.now) }
{
    let mut made = SortKeys::new(alloc);
    'keys: for key in keys {
        let expr = behind(alloc, columns, &key.expr)?;
        made.push(SortKey { expr, way: key.way })?;
    }
    Ok(made)
}

/// The place by a hash of keys of a right side.
fn hash_behind(
    alloc: Global,
    left_width: u32,
    right_width: u32,
    keys: &[Expr],
) -> Result<Placement, Memory>
    ensures { IfOk result (λ w. w ≡ Placement.Hash (map (spec.behind left_width right_width) keys.now)) }
{
    let columns = columns_from(alloc, left_width, right_width)?;
    let keys = exprs_behind(alloc, columns.slice(), keys)?;
    Ok(Placement::Hash(keys))
}

/// The place by ranges of sort keys of a right side.
fn range_behind(
    alloc: Global,
    left_width: u32,
    right_width: u32,
    keys: &[SortKey],
) -> Result<Placement, Memory>
    ensures { IfOk result (λ w. w ≡ Placement.Range (map (key_by (spec.behind left_width right_width)) keys.now)) }
{
    let columns = columns_from(alloc, left_width, right_width)?;
    let keys = sort_keys_behind(alloc, columns.slice(), keys)?;
    Ok(Placement::Range(keys))
}

/// A place of the right side of a join, spelled over joined rows.
pub fn placed_behind(
    alloc: Global,
    left_width: u32,
    right_width: u32,
    place: &Placement,
) -> Result<Placement, Memory>
    ensures { IfOk result (λ w. w ≡ spec.placed_behind left_width right_width place.now) }
{
    match place {
        Placement::Hash(keys) => hash_behind(alloc, left_width, right_width, keys.slice()),
        Placement::Range(keys) => range_behind(alloc, left_width, right_width, keys.slice()),
        Placement::Any => Ok(Placement::Any),
        Placement::Single => Ok(Placement::Single),
        Placement::Broadcast => Ok(Placement::Broadcast),
    }
}

/// The place by a hash of keys.
fn hash_of(alloc: Global, keys: &Exprs) -> Result<Placement, Memory>
    ensures { IfOk result (λ w. w ≡ Placement.Hash keys.now) }
{
    let keys = copy_exprs(alloc, keys)?;
    Ok(Placement::Hash(keys))
}

/// Where the rows of a join stand whose sides were joined part by part.
pub fn after_join(
    alloc: Global,
    kind: JoinKind,
    keys: &JoinKeys,
    left_width: u32,
    right_width: u32,
) -> Result<Placement, Memory>
    ensures { IfOk result (λ w. w ≡ spec.after_join kind keys.now left_width right_width) }
{
    match kind {
        JoinKind::RightOuter => hash_behind(alloc, left_width, right_width, keys.right.slice()),
        JoinKind::FullOuter => Ok(Placement::Any),
        JoinKind::Inner
        | JoinKind::Cross
        | JoinKind::LeftOuter
        | JoinKind::LeftSemi
        | JoinKind::LeftAnti => hash_of(alloc, &keys.left),
    }
}

/// Whether both lists have the same expressions in the same order.
fn are_same(a: &[Expr], b: &[Expr]) -> bool
    ensures { result ≡ pointwise same a.now b.now }
{
    match a.split_first() {
        None => b.is_empty(),
        Some((x, xs)) => match b.split_first() {
            None => false,
            Some((y, ys)) => same_expr(x, y) && are_same(xs, ys),
        },
    }
}

/// Whether rows stand by the hash of just these keys.
pub fn is_hash_of(keys: &[Expr], place: &Placement) -> bool
    ensures { result ≡ spec.is_hash_of keys.now place.now }
{
    match place {
        Placement::Hash(others) => are_same(others.slice(), keys),
        Placement::Any | Placement::Single | Placement::Range(_) | Placement::Broadcast => false,
    }
}
