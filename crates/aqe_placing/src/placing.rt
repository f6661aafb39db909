//! Where the rows of a plan stand, node by node.

ghost use Rattle.std.specs.Prelude.{◌≡◌, IfOk, position};
ghost use Rattle.std.specs.List.{list_all};
ghost use Rattle.aqe_rules.specs.Equality.{same_expr as same};
ghost use Rattle.aqe_fitting.specs.Placing as spec;
ghost use Rattle.aqe_placing.specs.Columns.{found_by, is_among};

use aqe_base::Memory;
use aqe_expr::Expr;
use aqe_logical::{Exprs, Placement, SortKey, SortKeys};
use aqe_same::same_expr;
use std::alloc::Global;

/// What rows are made of, by which their keys are spelled anew.
#[derive(Clone, Copy, Drop)]
pub(crate) enum Remade {
    /// The items of a projection, which keeps plain columns alone.
    Items,
    /// The keys of groups.
    Groups,
}

/// The column at a place. Places above 4,294,967,295 find no memory.
pub(crate) fn column_at(place: usize) -> Result<Expr, Memory>
    ensures { IfOk result (λ e. e ≡ Expr.Column place) }
{
    match u32::try_from(place) {
        Ok(place) => Ok(Expr::Column(place)),
        Err(_) => Err(Memory),
    }
}

/// The first of the items that is this expression.
fn first_place(items: &[Expr], expr: &Expr) -> Option<usize>
    ensures { result ≡ position (λ item. same item expr.now) items.now }
{
    items.iter().position(|item| same_expr(item, expr))
}

/// The first column of rows made of these items at which an expression stands.
fn column_with(items: &[Expr], expr: &Expr) -> Result<Option<Expr>, Memory>
    ensures { IfOk result (λ found. found ≡ spec.column_with items.now expr.now) }
{
    match first_place(items, expr) {
        Some(place) => {
            let column = column_at(place)?;
            Ok(Some(column))
        }
        None => Ok(None),
    }
}

/// An expression spelled over rows that are made of these items, if it is known there.
fn found(remade: Remade, items: &[Expr], expr: &Expr) -> Result<Option<Expr>, Memory>
    ensures { IfOk result (λ found. found ≡ found_by remade items.now expr.now) }
{
    match remade {
        Remade::Groups => column_with(items, expr),
        Remade::Items => match expr {
            Expr::Column(_) => column_with(items, expr),
            _ => Ok(None),
        },
    }
}

/// Keys spelled over rows that are made of these items, if each of them is known there.
fn found_keys(
    alloc: Global,
    remade: Remade,
    items: &[Expr],
    keys: &[Expr],
) -> Result<Option<Exprs>, Memory>
    ensures { IfOk result (λ made. made ≡ spec.each_found (found_by remade items.now) keys.now) }
{
    let mut made = Exprs::new(alloc);
    'keys: for key in keys {
        match found(remade, items, key)? {
            Some(key) => made.push(key)?,
            None => return Ok(None),
        }
    }
    Ok(Some(made))
}

/// Sort keys spelled over rows that are made of these items, if each of them is known there.
fn found_sort_keys(
    alloc: Global,
    items: &[Expr],
    keys: &[SortKey],
) -> Result<Option<SortKeys>, Memory>
    ensures { IfOk result (λ made. made ≡ spec.each_found (spec.found_key (spec.kept_column items.now)) keys.now) }
{
    let mut made = SortKeys::new(alloc);
    'keys: for key in keys {
        match found(Remade::Items, items, &key.expr)? {
            Some(expr) => made.push(SortKey { expr, way: key.way })?,
            None => return Ok(None),
        }
    }
    Ok(Some(made))
}

/// The place by a hash of keys that are spelled anew.
fn hash_by(
    alloc: Global,
    remade: Remade,
    items: &[Expr],
    keys: &[Expr],
) -> Result<Placement, Memory>
    ensures { IfOk result (λ w. w ≡ spec.hash_by (spec.each_found (found_by remade items.now) keys.now)) }
{
    match found_keys(alloc, remade, items, keys)? {
        Some(keys) => Ok(Placement::Hash(keys)),
        None => Ok(Placement::Any),
    }
}

/// The place by ranges of sort keys that are spelled anew.
fn range_by(alloc: Global, items: &[Expr], keys: &[SortKey]) -> Result<Placement, Memory>
    ensures { IfOk result (λ w. w ≡ spec.range_by (spec.each_found (spec.found_key (spec.kept_column items.now)) keys.now)) }
{
    match found_sort_keys(alloc, items, keys)? {
        Some(keys) => Ok(Placement::Range(keys)),
        None => Ok(Placement::Any),
    }
}

/// Where rows stand behind a projection.
pub fn after_project(alloc: Global, items: &[Expr], place: &Placement) -> Result<Placement, Memory>
    ensures { IfOk result (λ w. w ≡ spec.after_project items.now place.now) }
{
    match place {
        Placement::Single => Ok(Placement::Single),
        Placement::Hash(keys) => hash_by(alloc, Remade::Items, items, keys.slice()),
        Placement::Range(keys) => range_by(alloc, items, keys.slice()),
        Placement::Any | Placement::Broadcast => Ok(Placement::Any),
    }
}

/// Where partial groups stand.
pub fn after_groups(alloc: Global, keys: &[Expr], place: &Placement) -> Result<Placement, Memory>
    ensures { IfOk result (λ w. w ≡ spec.after_groups keys.now place.now) }
{
    match place {
        Placement::Single => Ok(Placement::Single),
        Placement::Hash(others) => hash_by(alloc, Remade::Groups, keys, others.slice()),
        Placement::Range(_) | Placement::Any | Placement::Broadcast => Ok(Placement::Any),
    }
}

/// Whether all rows stand in one part.
pub fn is_single(place: &Placement) -> bool
    ensures { result ≡ spec.is_single place.now }
{
    matches!(place, Placement::Single)
}

/// Whether an expression is one of the keys.
fn is_among(keys: &[Expr], expr: &Expr) -> bool
    ensures { result ≡ is_among keys.now expr.now }
{
    keys.iter().any(|key| same_expr(key, expr))
}

/// Whether each expression is one of the keys.
fn are_among(keys: &[Expr], exprs: &[Expr]) -> bool
    ensures { result ≡ list_all (is_among keys.now) exprs.now }
{
    exprs.iter().all(|expr| is_among(keys, expr))
}

/// Whether rows with equal keys stand in one part.
#[tactic(auto, using(crate::proofs::Found::keeps_by_hash))]
pub fn keeps_groups(keys: &[Expr], place: &Placement) -> bool
    ensures { result ≡ spec.keeps_groups keys.now place.now }
{
    match place {
        Placement::Single => true,
        Placement::Hash(others) => !keys.is_empty() && are_among(keys, others.slice()),
        Placement::Any | Placement::Range(_) | Placement::Broadcast => false,
    }
}
