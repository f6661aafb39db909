//! Texts, rows and lists, with ample memory.

use aqe_base::{Bytes, Rect, Rects, Sizes, StageId, StageList};
use aqe_values::{Row, Rows, Text, Value};
use std::test::Fail;

#[test]
fn bytes_keep_their_order(rt: HostRuntime) -> Result<(), Fail> {
    let mut bytes = Bytes::new(rt.alloc());
    bytes.push(104)?;
    bytes.push(105)?;
    assert_eq!(rt; bytes.slice(), b"hi".as_slice());
    assert_eq!(rt; bytes.into_vec().len(), 2);
    Ok(())
}

#[test]
fn lists_of_numbers_take_an_item(rt: HostRuntime) -> Result<(), Fail> {
    let alloc = rt.alloc();
    let mut sizes = Sizes::new(alloc);
    sizes.push(7)?;
    let mut stages = StageList::new(alloc);
    stages.push(StageId(3))?;
    let mut rects = Rects::new(alloc);
    rects.push(Rect {
        m0: 0,
        m1: 1,
        r0: 2,
        r1: 3,
    })?;
    assert_eq!(rt; sizes.len() + stages.len() + rects.len(), 3);
    Ok(())
}

#[test]
fn a_text_keeps_its_bytes(rt: HostRuntime) -> Result<(), Fail> {
    let text = Text::copy_of(rt.alloc(), "caf\u{e9}\tx")?;
    assert_eq!(rt; text.as_str(), "caf\u{e9}\tx");
    Ok(())
}

#[test]
fn a_copied_row_equals_its_source(rt: HostRuntime) -> Result<(), Fail> {
    let mut row = Row::new(rt.alloc());
    row.push(Value::Null)?;
    row.push(Value::Text(Text::copy_of(rt.alloc(), "north")?))?;
    let copy = row.copy(rt.alloc())?;
    assert!(rt; copy == row);
    let mut rows = Rows::new(rt.alloc());
    rows.push(row)?;
    assert_eq!(rt; rows.len(), 1);
    assert_eq!(rt; copy.len(), 2);
    Ok(())
}

#[test]
fn null_equals_null_and_an_int_is_no_bigint(rt: HostRuntime) {
    assert!(rt; Value::Null == Value::Null);
    assert!(rt; Value::Int(1) != Value::BigInt(1));
    assert!(rt; Value::Boolean(false) != Value::Null);
}

#[test]
fn a_value_is_small(rt: HostRuntime) {
    assert_eq!(rt; std::mem::size_of::<Value>(), 32);
}
