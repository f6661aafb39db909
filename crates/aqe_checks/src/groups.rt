//! Groups in two steps, filters and projections, over tables of cases whose values are worked out by hand.

use crate::rows::{rows_of, text_of};
use aqe_expr::{BinaryOp, Expr};
use aqe_logical::{AggCall, AggCalls, AggFun, Exprs};
use aqe_operators::{filter_rows, final_rows, partial_rows, project_rows};
use aqe_values::{Row, Rows, Value};
use std::alloc::Global;
use std::test::Fail;

/// The columns of these numbers.
fn columns(alloc: Global, numbers: &[u32]) -> Result<Exprs, Fail> {
    let mut list = Exprs::new(alloc);
    for number in numbers {
        if list.len() > 100 {
            return Err(Fail::new("many columns"));
        }
        list.push(Expr::Column(*number))?;
    }
    Ok(list)
}

/// Each function over the column of the number.
fn all_calls(alloc: Global, number: u32) -> Result<AggCalls, Fail> {
    let mut calls = AggCalls::new(alloc);
    for fun in [AggFun::Count, AggFun::Sum, AggFun::Min, AggFun::Max] {
        if calls.len() > 100 {
            return Err(Fail::new("many calls"));
        }
        calls.push(AggCall {
            fun,
            arg: Expr::Column(number),
        })?;
    }
    Ok(calls)
}

/// Appends the partial rows of a list.
fn add_partial(
    alloc: Global,
    keys: &Exprs,
    calls: &AggCalls,
    rows: &str,
    partial: &mut Rows,
) -> Result<(), Fail> {
    if keys.len() > 500 || calls.len() > 500 {
        return Err(Fail::new("many columns"));
    }
    let rows = rows_of(alloc, rows)?;
    for row in partial_rows(alloc, keys, calls, &rows)?.into_vec() {
        partial.push(row)?;
    }
    Ok(())
}

/// The partial rows of two lists, finished together.
fn grouped(
    alloc: Global,
    keys: &[u32],
    number: u32,
    first: &str,
    second: &str,
) -> Result<String, Fail> {
    let keys = columns(alloc, keys)?;
    let calls = all_calls(alloc, number)?;
    let mut partial = Rows::new(alloc);
    add_partial(alloc, &keys, &calls, first, &mut partial)?;
    add_partial(alloc, &keys, &calls, second, &mut partial)?;
    if keys.len() > 500 || calls.len() > 500 {
        return Err(Fail::new("many columns"));
    }
    let done = final_rows(alloc, keys.len() as u32, &calls, &partial)?;
    Ok(text_of(alloc, done.slice())?)
}

#[test]
fn groups_in_order_of_first_appearance(rt: HostRuntime) -> Result<(), Fail> {
    let alloc = rt.alloc();
    for (first, second, all) in [
        ("", "", ""),
        ("1,10", "", "1,1L,10L,10,10"),
        (
            "1,10;2,20;1,5",
            "2,~;3,1",
            "1,2L,15L,5,10;2,1L,20L,20,20;3,1L,1L,1,1",
        ),
        ("~,1", "~,2;5,3", "~,2L,3L,1,2;5,1L,3L,3,3"),
        ("b,~;a,~", "b,~", "b,0L,~,~,~;a,0L,~,~,~"),
        ("true,b;false,a", "true,a", "true,2L,~,a,b;false,1L,~,a,a"),
        (
            "k,9223372036854775807",
            "k,9223372036854775807",
            "k,2L,-2L,9223372036854775807L,9223372036854775807L",
        ),
        (
            "k,-9223372036854775808;k,-9223372036854775807",
            "",
            "k,2L,1L,-9223372036854775808L,-9223372036854775807L",
        ),
    ] {
        assert_eq!(rt;
            grouped(alloc, &[0], 1, first, second)?.as_str(),
            all,
            "{first}|{second}"
        );
    }
    Ok(())
}

#[test]
fn without_keys_there_is_one_group(rt: HostRuntime) -> Result<(), Fail> {
    let alloc = rt.alloc();
    for (first, second, all) in [
        ("", "", "0L,~,~,~"),
        ("~", "~", "0L,~,~,~"),
        ("1;2", "3", "3L,6L,1,3"),
        ("2147483647", "1", "2L,2147483648L,1,2147483647"),
        ("é;a", "b", "3L,~,a,é"),
        ("true", "false;~", "2L,~,false,true"),
    ] {
        assert_eq!(rt;
            grouped(alloc, &[], 0, first, second)?.as_str(),
            all,
            "{first}|{second}"
        );
    }
    Ok(())
}

#[test]
fn groups_by_two_keys(rt: HostRuntime) -> Result<(), Fail> {
    let alloc = rt.alloc();
    let shown = grouped(alloc, &[0, 1], 2, "1,a,3;1,b,4;~,a,5", "1,a,6;~,~,7")?;
    assert_eq!(rt;
        shown.as_str(),
        "1,a,2L,9L,3,6;1,b,1L,4L,4,4;~,a,1L,5L,5,5;~,~,1L,7L,7,7"
    );
    Ok(())
}

/// A row for each number below 3,000: its remainder by 1,000, and itself.
fn numbered_rows(alloc: Global) -> Result<Rows, Fail> {
    let mut rows = Rows::new(alloc);
    for i in 0..3000i32 {
        rows.push(pair(alloc, i % 1000, i)?)?;
    }
    Ok(rows)
}

fn pair(alloc: Global, a: i32, b: i32) -> Result<Row, Fail> {
    let mut row = Row::new(alloc);
    row.push(Value::Int(a))?;
    row.push(Value::Int(b))?;
    Ok(row)
}

/// The partial rows by the first column.
fn by_the_first(alloc: Global, rows: &Rows) -> Result<Rows, Fail> {
    let keys = columns(alloc, &[0])?;
    let calls = all_calls(alloc, 1)?;
    if keys.len() > 500 || calls.len() > 500 {
        return Err(Fail::new("many columns"));
    }
    Ok(partial_rows(alloc, &keys, &calls, rows)?)
}

#[test]
fn a_thousand_groups_keep_their_order(rt: HostRuntime) -> Result<(), Fail> {
    let groups = by_the_first(rt.alloc(), &numbered_rows(rt.alloc())?)?;
    let mut wanted = 0;
    for row in groups.slice() {
        assert!(rt; row.values().first() == Some(&Value::Int(wanted)));
        wanted = wanted.wrapping_add(1);
    }
    assert_eq!(rt; wanted, 1000);
    Ok(())
}

/// The rows of which the first column is above 1.
fn kept(alloc: Global, rows: &str) -> Result<Rows, Fail> {
    let one = Expr::Literal(Value::Int(1));
    let above = Expr::binary(alloc, BinaryOp::Gt, Expr::Column(0), one)?;
    Ok(filter_rows(alloc, &above, rows_of(alloc, rows)?)?)
}

/// The second column and then the first one.
fn turned(alloc: Global, rows: &Rows) -> Result<Rows, Fail> {
    let items = columns(alloc, &[1, 0])?;
    if items.len() > 1000 {
        return Err(Fail::new("many columns"));
    }
    Ok(project_rows(alloc, &items, rows)?)
}

#[test]
fn rows_are_filtered_and_projected(rt: HostRuntime) -> Result<(), Fail> {
    let alloc = rt.alloc();
    for (rows, left, shown) in [
        ("", "", ""),
        ("1,a;2,b;~,c;3,d", "2,b;3,d", "b,2;d,3"),
        ("2147483647,~", "2147483647,~", "~,2147483647"),
    ] {
        let rows = kept(alloc, rows)?;
        assert_eq!(rt; text_of(alloc, rows.slice())?.as_str(), left);
        let made = turned(alloc, &rows)?;
        assert_eq!(rt; text_of(alloc, made.slice())?.as_str(), shown);
    }
    Ok(())
}

/// Partial rows of one key and one count, finished.
fn counts_finished(alloc: Global, partial: &str) -> Result<String, Fail> {
    let mut calls = AggCalls::new(alloc);
    calls.push(AggCall {
        fun: AggFun::Count,
        arg: Expr::Column(0),
    })?;
    if calls.len() > 500 {
        return Err(Fail::new("many calls"));
    }
    let done = final_rows(alloc, 1, &calls, &rows_of(alloc, partial)?)?;
    Ok(text_of(alloc, done.slice())?)
}

#[test]
fn counts_of_parts_add_up_and_wrap(rt: HostRuntime) -> Result<(), Fail> {
    let alloc = rt.alloc();
    for (partial, finished) in [
        (
            "k,3000000000;l,3000000001;k,3000000000",
            "k,6000000000L;l,3000000001L",
        ),
        ("k,9223372036854775807;k,9223372036854775807", "k,-2L"),
        (
            "~,9223372036854775807;~,3000000000",
            "~,-9223372033854775809L",
        ),
    ] {
        assert_eq!(rt;
            counts_finished(alloc, partial)?.as_str(),
            finished,
            "{partial}"
        );
    }
    Ok(())
}
