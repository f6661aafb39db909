//! Copies of plans.

ghost use Rattle.std.specs.Prelude.{◌≡◌, IfOk};

use crate::parts::{copy_calls, copy_expr, copy_exprs, copy_schema, copy_sort_keys};
use crate::{AggCalls, Exprs, Logical, Placement, SortKeys};
use aqe_base::{JoinKind, Memory, StageId};
use aqe_boxes::{all_three, both};
use aqe_expr::Expr;
use aqe_values::Schema;
use std::alloc::Global;

/// A plan equal to this one.
#[cycle(copy)]
pub fn copy(alloc: Global, logical: &Logical) -> Result<Logical, Memory>
    ensures { IfOk result (λ p. p ≡ logical.now) }
{
    match logical {
        Logical::OneRow => Ok(Logical::OneRow),
        Logical::Scan { table, schema } => scan(alloc, *table, schema),
        Logical::Filter { cond, child } => filter(alloc, cond, child.get()),
        Logical::Project {
            items,
            schema,
            child,
        } => project(alloc, items, schema, child.get()),
        Logical::Join {
            kind,
            cond,
            left,
            right,
        } => join(alloc, *kind, cond, left.get(), right.get()),
        Logical::Aggregate {
            keys,
            calls,
            schema,
            child,
        } => aggregate(alloc, keys, calls, schema, child.get()),
        Logical::Union { left, right } => union(alloc, left.get(), right.get()),
        Logical::Sort { keys, child } => sort(alloc, keys, child.get()),
        Logical::Limit { count, skip, child } => limit(alloc, *count, *skip, child.get()),
        Logical::Empty { schema } => empty(alloc, schema),
        Logical::Held {
            stage,
            place,
            schema,
        } => held(alloc, *stage, place, schema),
        Logical::HeldPartial {
            stage,
            calls,
            schema,
        } => held_partial(alloc, *stage, calls, schema),
        Logical::Sampled { stage, child } => sampled(alloc, *stage, child.get()),
    }
}

fn scan(alloc: Global, table: u32, schema: &Schema) -> Result<Logical, Memory>
    ensures { IfOk result (λ p. p ≡ Logical.Scan table schema.now) }
{
    let schema = copy_schema(alloc, schema)?;
    Ok(Logical::Scan { table, schema })
}

fn empty(alloc: Global, schema: &Schema) -> Result<Logical, Memory>
    ensures { IfOk result (λ p. p ≡ Logical.Empty schema.now) }
{
    let schema = copy_schema(alloc, schema)?;
    Ok(Logical::Empty { schema })
}

fn held(
    alloc: Global,
    stage: StageId,
    place: &Placement,
    schema: &Schema,
) -> Result<Logical, Memory>
    ensures { IfOk result (λ p. p ≡ Logical.Held stage place.now schema.now) }
{
    let (place, schema) = both(place.copy(alloc), copy_schema(alloc, schema))?;
    Ok(Logical::Held {
        stage,
        place,
        schema,
    })
}

fn held_partial(
    alloc: Global,
    stage: StageId,
    calls: &AggCalls,
    schema: &Schema,
) -> Result<Logical, Memory>
    ensures { IfOk result (λ p. p ≡ Logical.HeldPartial stage calls.now schema.now) }
{
    let (calls, schema) = both(copy_calls(alloc, calls), copy_schema(alloc, schema))?;
    Ok(Logical::HeldPartial {
        stage,
        calls,
        schema,
    })
}

#[cycle(copy)]
fn filter(alloc: Global, cond: &Expr, child: &Logical) -> Result<Logical, Memory>
    ensures { IfOk result (λ p. p ≡ Logical.Filter cond.now child.now) }
{
    let (cond, child) = both(copy_expr(alloc, cond), copy(alloc, child))?;
    Logical::filter(alloc, cond, child)
}

#[cycle(copy)]
fn project(
    alloc: Global,
    items: &Exprs,
    schema: &Schema,
    child: &Logical,
) -> Result<Logical, Memory>
    ensures { IfOk result (λ p. p ≡ Logical.Project items.now schema.now child.now) }
{
    let (items, schema, child) = all_three(
        copy_exprs(alloc, items),
        copy_schema(alloc, schema),
        copy(alloc, child),
    )?;
    Logical::project(alloc, items, schema, child)
}

#[cycle(copy)]
fn join(
    alloc: Global,
    kind: JoinKind,
    cond: &Expr,
    left: &Logical,
    right: &Logical,
) -> Result<Logical, Memory>
    ensures { IfOk result (λ p. p ≡ Logical.Join kind cond.now left.now right.now) }
{
    let (cond, left, right) = all_three(
        copy_expr(alloc, cond),
        copy(alloc, left),
        copy(alloc, right),
    )?;
    Logical::join(alloc, kind, cond, left, right)
}

#[cycle(copy)]
fn aggregate(
    alloc: Global,
    keys: &Exprs,
    calls: &AggCalls,
    schema: &Schema,
    child: &Logical,
) -> Result<Logical, Memory>
    ensures { IfOk result (λ p. p ≡ Logical.Aggregate keys.now calls.now schema.now child.now) }
{
    let ((keys, calls), (schema, child)) = both(
        both(copy_exprs(alloc, keys), copy_calls(alloc, calls)),
        both(copy_schema(alloc, schema), copy(alloc, child)),
    )?;
    Logical::aggregate(alloc, keys, calls, schema, child)
}

#[cycle(copy)]
fn union(alloc: Global, left: &Logical, right: &Logical) -> Result<Logical, Memory>
    ensures { IfOk result (λ p. p ≡ Logical.Union left.now right.now) }
{
    let (left, right) = both(copy(alloc, left), copy(alloc, right))?;
    Logical::union(alloc, left, right)
}

#[cycle(copy)]
fn sort(alloc: Global, keys: &SortKeys, child: &Logical) -> Result<Logical, Memory>
    ensures { IfOk result (λ p. p ≡ Logical.Sort keys.now child.now) }
{
    let (keys, child) = both(copy_sort_keys(alloc, keys), copy(alloc, child))?;
    Logical::sort(alloc, keys, child)
}

#[cycle(copy)]
fn limit(alloc: Global, count: Option<u64>, skip: u64, child: &Logical) -> Result<Logical, Memory>
    ensures { IfOk result (λ p. p ≡ Logical.Limit count skip child.now) }
{
    let child = copy(alloc, child)?;
    Logical::limit(alloc, count, skip, child)
}

#[cycle(copy)]
fn sampled(alloc: Global, stage: StageId, child: &Logical) -> Result<Logical, Memory>
    ensures { IfOk result (λ p. p ≡ Logical.Sampled stage child.now) }
{
    let child = copy(alloc, child)?;
    Logical::sampled(alloc, stage, child)
}
