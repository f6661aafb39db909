//! Rows as texts, for tables of cases: values are parted by commas and rows by semicolons.

use aqe_values::{Row, Rows, Text, Value};
use std::alloc::{AllocError, Global};
use std::test::Fail;

/// The value that a word stands for: `~` for NULL, a number for an INT or where INT is too small a BIGINT, else a text.
fn value_of(alloc: Global, word: &str) -> Result<Value, Fail> {
    if word.len() > 1000 {
        return Err(Fail::new("a long text"));
    }
    match word {
        "~" => return Ok(Value::Null),
        "true" => return Ok(Value::Boolean(true)),
        "false" => return Ok(Value::Boolean(false)),
        _ => {}
    }
    if let Ok(number) = word.parse::<i32>() {
        return Ok(Value::Int(number));
    }
    match word.parse::<i64>() {
        Ok(number) => Ok(Value::BigInt(number)),
        Err(_) => Ok(Value::Text(Text::copy_of(alloc, word)?)),
    }
}

fn row_of(alloc: Global, words: &str) -> Result<Row, Fail> {
    let mut row = Row::new(alloc);
    for word in words.split(',') {
        if row.len() > 1000 {
            return Err(Fail::new("a wide row"));
        }
        row.push(value_of(alloc, word)?)?;
    }
    Ok(row)
}

/// The rows of a text; an empty text has none.
pub fn rows_of(alloc: Global, text: &str) -> Result<Rows, Fail> {
    let mut rows = Rows::new(alloc);
    if text.is_empty() {
        return Ok(rows);
    }
    for words in text.split(';') {
        rows.push(row_of(alloc, words)?)?;
    }
    Ok(rows)
}

/// A value as its word, with an L behind a BIGINT.
fn value_text(alloc: Global, value: &Value) -> Result<String, AllocError> {
    match value {
        Value::Null => String::from_str(alloc, "~"),
        Value::Boolean(it) => format!(in alloc; "{it}"),
        Value::Int(number) => format!(in alloc; "{number}"),
        Value::BigInt(number) => format!(in alloc; "{number}L"),
        Value::Text(text) => String::from_str(alloc, text.as_str()),
    }
}

/// The values of a row as one text.
pub fn row_text(alloc: Global, row: &Row) -> Result<String, AllocError> {
    let mut text = String::new(alloc);
    for (i, value) in row.values().iter().enumerate() {
        if i > 0 {
            text.push(',')?;
        }
        let word = value_text(alloc, value)?;
        text.push_str(word.as_str())?;
    }
    Ok(text)
}

/// The rows as one text.
pub fn text_of(alloc: Global, rows: &[Row]) -> Result<String, AllocError> {
    let mut text = String::new(alloc);
    for (i, row) in rows.iter().enumerate() {
        if i > 0 {
            text.push(';')?;
        }
        let words = row_text(alloc, row)?;
        text.push_str(words.as_str())?;
    }
    Ok(text)
}
