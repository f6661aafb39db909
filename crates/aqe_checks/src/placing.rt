//! Hashes and places of key rows. The values are those of Murmur3 in 32-bit words with Spark's tail of single bytes, from a model in Python.

use aqe_values::{Row, Text, Value, murmur, place_of};
use std::alloc::Global;
use std::test::Fail;

/// The key row of one value.
fn key(alloc: Global, value: Value) -> Result<Row, Fail> {
    let mut row = Row::new(alloc);
    row.push(value)?;
    Ok(row)
}

/// The hash of one value under the seed of placement.
fn hash(alloc: Global, value: Value) -> Result<i32, Fail> {
    let row = key(alloc, value)?;
    Ok(murmur(&row, 42))
}

#[test]
fn numbers_are_hashed_by_words(rt: HostRuntime) -> Result<(), Fail> {
    let alloc = rt.alloc();
    for (number, hashed) in [
        (1, -559580957),
        (0, 933211791),
        (-1, -1604776387),
        (i32::MAX, 133916647),
        (i32::MIN, 723455942),
    ] {
        assert_eq!(rt; hash(alloc, Value::Int(number))?, hashed, "{number}");
    }
    for (number, hashed) in [
        (0, -1670924195),
        (1, -1712319331),
        (-1, -939490007),
        (4294967296, -1307033787),
        (i64::MAX, -1604625029),
        (i64::MIN, -853646085),
    ] {
        assert_eq!(rt; hash(alloc, Value::BigInt(number))?, hashed, "{number}");
    }
    Ok(())
}

/// The hash of a text under the seed of placement.
fn text_hash(alloc: Global, text: &str) -> Result<i32, Fail> {
    if text.len() > 1000 {
        return Err(Fail::new("a long text"));
    }
    hash(alloc, Value::Text(Text::copy_of(alloc, text)?))
}

#[test]
fn texts_are_hashed_by_words_and_then_by_bytes(rt: HostRuntime) -> Result<(), Fail> {
    for (text, hashed) in [
        ("", 142593372),
        ("a", 1485273170),
        ("ab", -97053317),
        ("abc", 1322437556),
        ("abcd", -396302900),
        ("abcde", 814637928),
        ("abcdef", 724255765),
        ("abcdefg", 2132013596),
        ("abcdefgh", -804741815),
        ("abcdefghi", -1830117711),
        ("é", 2119106806),
        ("ÿ", 1533202516),
        ("日本", -336983209),
        ("naïve café", -1533585548),
    ] {
        assert_eq!(rt; text_hash(rt.alloc(), text)?, hashed, "{text}");
    }
    Ok(())
}

/// A key row of three values.
fn three(alloc: Global, a: Value, b: Value, c: Value) -> Result<Row, Fail> {
    let mut row = Row::new(alloc);
    row.push(a)?;
    row.push(b)?;
    row.push(c)?;
    Ok(row)
}

#[test]
fn a_null_leaves_the_hash_as_it_is(rt: HostRuntime) -> Result<(), Fail> {
    let alloc = rt.alloc();
    let truth = Value::Boolean(true);
    let last = three(alloc, Value::Int(-1), Value::Null, truth)?;
    assert_eq!(rt; murmur(&last, 42), 1309382192);
    let truth = Value::Boolean(true);
    let first = three(alloc, Value::Null, Value::Int(-1), truth)?;
    assert_eq!(rt; murmur(&first, 42), 1309382192);
    assert_eq!(rt; murmur(&key(alloc, Value::Null)?, -7), -7);
    Ok(())
}

#[test]
fn a_place_is_the_hash_modulo_the_parts(rt: HostRuntime) -> Result<(), Fail> {
    let alloc = rt.alloc();
    assert_eq!(rt; place_of(&key(alloc, Value::Int(1))?, 200), 43);
    assert_eq!(rt; place_of(&key(alloc, Value::Null)?, 10), 2);
    assert_eq!(rt; place_of(&key(alloc, Value::BigInt(i64::MIN))?, 10), 5);
    Ok(())
}
