//! Plans that are made by hand, and copies of plans and expressions.

ghost use Rattle.std.specs.Prelude.{◌≤◌, length};

use aqe_analysis::analyse;
use aqe_base::{JoinKind, Memory, StageId};
use aqe_boxes::both;
use aqe_expr::{Expr, eval};
use aqe_lexer::tokens;
use aqe_logical::{
    AggCall, AggCalls, AggFun, Exprs, Logical, Placement, SortKey, SortKeys, copy, schema_of,
};
use aqe_syntax::parse;
use aqe_tables::Catalog;
use aqe_trees::{Script, Stmt};
use aqe_values::{Field, Row, Schema, SortWay, SqlType, Text, Value};
use std::alloc::Global;
use std::test::Fail;

/// The schema of one column.
fn one_column(alloc: Global) -> Result<Schema, Memory> {
    let mut schema = Schema::new(alloc);
    let Ok(name) = Text::copy_of(alloc, "a") else {
        return Err(Memory);
    };
    let field = Field {
        name,
        kind: SqlType::Int,
    };
    match schema.push(field) {
        Ok(()) => Ok(schema),
        Err(_) => Err(Memory),
    }
}

fn scan(alloc: Global) -> Result<Logical, Memory> {
    let schema = one_column(alloc)?;
    Ok(Logical::Scan { table: 0, schema })
}

/// The first column as a list of keys of a sort.
fn first_column(alloc: Global) -> Result<SortKeys, Memory> {
    let mut keys = SortKeys::new(alloc);
    keys.push(SortKey {
        expr: Expr::Column(0),
        way: SortWay {
            descending: false,
            nulls_last: false,
        },
    })?;
    Ok(keys)
}

fn two_scans(alloc: Global) -> Result<Logical, Memory> {
    let (left, right) = both(scan(alloc), scan(alloc))?;
    Logical::union(alloc, left, right)
}

fn all_rows(alloc: Global) -> Result<Logical, Memory> {
    let child = two_scans(alloc)?;
    Logical::filter(alloc, Expr::Literal(Value::Boolean(true)), child)
}

fn count_of_the_column(alloc: Global) -> Result<AggCalls, Memory> {
    let mut calls = AggCalls::new(alloc);
    calls.push(AggCall {
        fun: AggFun::Count,
        arg: Expr::Column(0),
    })?;
    Ok(calls)
}

/// A count of the rows of two scans, without groups.
fn counted(alloc: Global) -> Result<Logical, Memory> {
    let (child, calls) = both(all_rows(alloc), count_of_the_column(alloc))?;
    with_schema(alloc, child, calls)
}

fn with_schema(alloc: Global, child: Logical, calls: AggCalls) -> Result<Logical, Memory> {
    match one_column(alloc) {
        Ok(schema) => Logical::aggregate(alloc, Exprs::new(alloc), calls, schema, child),
        Err(fault) => Err(fault),
    }
}

fn sorted(alloc: Global) -> Result<Logical, Memory> {
    let (child, keys) = both(counted(alloc), first_column(alloc))?;
    Logical::sort(alloc, keys, child)
}

fn limited(alloc: Global) -> Result<Logical, Memory> {
    let child = scan(alloc)?;
    Logical::limit(alloc, Some(1), 0, child)
}

fn joined(alloc: Global) -> Result<Logical, Memory> {
    let (left, right) = both(sorted(alloc), limited(alloc))?;
    let condition = Expr::Literal(Value::Null);
    Logical::join(alloc, JoinKind::Inner, condition, left, right)
}

/// Rows that a stage holds by ranges of the first column.
fn held(alloc: Global) -> Result<Logical, Memory> {
    let (keys, schema) = both(first_column(alloc), one_column(alloc))?;
    Ok(Logical::Held {
        stage: StageId(0),
        place: Placement::Range(keys),
        schema,
    })
}

fn sampled(alloc: Global) -> Result<Logical, Memory> {
    let child = held(alloc)?;
    Logical::sampled(alloc, StageId(1), child)
}

fn first_item(alloc: Global) -> Result<Exprs, Memory> {
    let mut items = Exprs::new(alloc);
    items.push(Expr::Column(0))?;
    Ok(items)
}

fn of_items(alloc: Global, items: Exprs, child: Logical) -> Result<Logical, Memory> {
    match one_column(alloc) {
        Ok(schema) => Logical::project(alloc, items, schema, child),
        Err(fault) => Err(fault),
    }
}

fn projected(alloc: Global) -> Result<Logical, Memory> {
    let (child, items) = both(sampled(alloc), first_item(alloc))?;
    of_items(alloc, items, child)
}

fn columns_of_copy(alloc: Global, plan: &Logical) -> Result<usize, Memory> {
    let copied = copy(alloc, plan)?;
    let schema = schema_of(alloc, &copied)?;
    Ok(schema.len())
}

#[test]
fn plans_are_made_and_copied(rt: HostRuntime) -> Result<(), Memory> {
    let alloc = rt.alloc();
    let plan = joined(alloc)?;
    let columns = columns_of_copy(alloc, &plan)?;
    assert!(rt; columns == 2);
    Ok(())
}

#[test]
fn held_leaves_are_copied(rt: HostRuntime) -> Result<(), Memory> {
    let alloc = rt.alloc();
    let plan = projected(alloc)?;
    let columns = columns_of_copy(alloc, &plan)?;
    assert!(rt; columns == 1);
    Ok(())
}

/// The script of a source.
fn script_of(alloc: Global, source: &str) -> Result<Script, Fail>
    requires { length source.now ≤ 67108864 }
{
    let Ok(tokens) = tokens(alloc, source.as_bytes()) else {
        return Err(Fail::new("no tokens"));
    };
    match parse(alloc, source.as_bytes(), &tokens) {
        Ok(script) => Ok(script),
        Err(_) => Err(Fail::new("no script")),
    }
}

/// The plan of a query without tables that is a script's only statement.
fn planned(alloc: Global, script: &Script) -> Result<Logical, Fail> {
    let [Stmt::Query(query)] = script.slice() else {
        return Err(Fail::new("no query"));
    };
    match analyse(alloc, query, &Catalog::new(alloc)) {
        Ok(plan) => Ok(plan),
        Err(_) => Err(Fail::new("refused")),
    }
}

fn plan_of(alloc: Global, source: &str) -> Result<Logical, Fail>
    requires { length source.now ≤ 67108864 }
{
    let script = script_of(alloc, source)?;
    planned(alloc, &script)
}

/// Whether the expressions, which are without columns, have one value.
fn agree(alloc: Global, one: &Expr, other: &Expr) -> Result<bool, Fail> {
    let row = Row::new(alloc);
    let value = eval(alloc, one, &row)?;
    Ok(value == eval(alloc, other, &row)?)
}

/// How many of the expressions have the same value as the one at their place in the other list.
fn agreeing(alloc: Global, some: &[Expr], others: &[Expr]) -> Result<u64, Fail> {
    let mut count: u64 = 0;
    for i in 0..some.len() {
        if let (Some(one), Some(other)) = (some.get(i), others.get(i)) {
            if agree(alloc, one, other)? {
                count = count.wrapping_add(1);
            }
        }
    }
    Ok(count)
}

/// How many items of a copy of the plan have the same values.
fn agreeing_items(alloc: Global, plan: &Logical) -> Result<u64, Fail> {
    let copied = copy(alloc, plan)?;
    match (plan, &copied) {
        (Logical::Project { items, .. }, Logical::Project { items: others, .. }) => {
            agreeing(alloc, items.slice(), others.slice())
        }
        _ => Ok(0),
    }
}

#[test]
fn each_form_of_an_expression_is_copied(rt: HostRuntime) -> Result<(), Fail> {
    let alloc = rt.alloc();
    let source =
        "SELECT 1 + -2L, NOT TRUE, 2 BETWEEN 1 AND 3, 2 IN (1, NULL), CASE WHEN TRUE THEN 'x' END,
        CASE 2 WHEN 1 THEN 3 WHEN 2 THEN 4 ELSE 5 END, coalesce(NULL, length('ab')), CAST('7' AS INT), ('a' LIKE 'b') IS TRUE";
    let plan = plan_of(alloc, source)?;
    let count = agreeing_items(alloc, &plan)?;
    assert_eq!(rt; count, 9);
    Ok(())
}
