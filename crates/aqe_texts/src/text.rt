//! The printed form of an answer: a line of column names, a line for each row, and an end line.

ghost use Rattle.std.specs.Prelude.{◌≡◌, ◌∷◌, ◌++◌, IfOk, OnOk, map};
ghost use Rattle.aqe_texts.specs.ResultText.{escaped, escaped_byte, header_text, value_text};
ghost use Rattle.aqe_texts.specs.ResultText.{result_text as printed_result, row_text};
ghost use Rattle.std.specs.List.{flat_map, join_with_byte};

use aqe_base::{Bytes, Memory};
use aqe_values::{Field, Row, Rows, Schema, Value};
use itoa::Buffer;
use std::alloc::{AllocError, Global};

fn push_escaped_byte(text: &mut Vec<u8>, byte: u8) -> Result<(), AllocError>
    ensures { OnOk result (text.new.items ≡ text.old.items ++ escaped_byte byte) }
{
    match byte {
        b'\\' => text.extend_from_slice(b"\\\\"),
        b'\t' => text.extend_from_slice(b"\\t"),
        b'\n' => text.extend_from_slice(b"\\n"),
        b'\r' => text.extend_from_slice(b"\\r"),
        plain => {
            text.push(plain)?;
            Ok(())
        }
    }
}

/// Appends the bytes with a backslash for each one that would break a line or a field.
pub fn push_escaped(text: &mut Vec<u8>, bytes: &[u8]) -> Result<(), AllocError>
    ensures { OnOk result (text.new.items ≡ text.old.items ++ escaped bytes.now) }
{
    'bytes: for byte in bytes {
        push_escaped_byte(text, *byte)?;
    }
    Ok(())
}

fn push_value(text: &mut Vec<u8>, value: &Value) -> Result<(), AllocError>
    ensures { OnOk result (text.new.items ≡ text.old.items ++ value_text value.now) }
{
    let mut digits = Buffer::new();
    match value {
        Value::Null => text.extend_from_slice(b"\\N"),
        Value::Boolean(true) => text.extend_from_slice(b"true"),
        Value::Boolean(false) => text.extend_from_slice(b"false"),
        Value::Int(n) => text.extend_from_slice(digits.format(*n).as_bytes()),
        Value::BigInt(n) => text.extend_from_slice(digits.format(*n).as_bytes()),
        Value::Text(word) => push_escaped(text, word.as_str().as_bytes()),
    }
}

fn push_next_value(text: &mut Vec<u8>, value: &Value) -> Result<(), AllocError>
    ensures { OnOk result (text.new.items ≡ text.old.items ++ 9 ∷ value_text value.now) }
{
    text.push(b'\t')?;
    push_value(text, value)
}

fn push_next_values(text: &mut Vec<u8>, values: &[Value]) -> Result<(), AllocError>
    ensures { OnOk result (text.new.items
        ≡ text.old.items ++ flat_map (λ value. 9 ∷ value_text value) values.now) }
{
    'values: for value in values {
        push_next_value(text, value)?;
    }
    Ok(())
}

fn push_values(text: &mut Vec<u8>, values: &[Value]) -> Result<(), AllocError>
    ensures { OnOk result (text.new.items
        ≡ text.old.items ++ join_with_byte 9 (map value_text values.now)) }
{
    match values.split_first() {
        Some((first, rest)) => {
            push_value(text, first)?;
            push_next_values(text, rest)?;
            Ok(())
        }
        None => Ok(()),
    }
}

fn push_row(text: &mut Vec<u8>, values: &[Value]) -> Result<(), AllocError>
    ensures { OnOk result (text.new.items ≡ text.old.items ++ row_text values.now) }
{
    push_values(text, values)?;
    text.push(b'\n')?;
    Ok(())
}

fn push_rows(text: &mut Vec<u8>, rows: &[Row]) -> Result<(), AllocError>
    ensures { OnOk result (text.new.items ≡ text.old.items ++ flat_map row_text rows.now) }
{
    'rows: for row in rows {
        push_row(text, row.values())?;
    }
    Ok(())
}

fn push_name(text: &mut Vec<u8>, column: &Field) -> Result<(), AllocError>
    ensures { OnOk result (text.new.items ≡ text.old.items ++ escaped column.now.name) }
{
    push_escaped(text, column.name.as_str().as_bytes())
}

fn push_next_names(text: &mut Vec<u8>, columns: &[Field]) -> Result<(), AllocError>
    ensures { OnOk result (text.new.items
        ≡ text.old.items ++ flat_map (λ column. 9 ∷ escaped column.name) columns.now) }
{
    'columns: for column in columns {
        text.push(b'\t')?;
        push_name(text, column)?;
    }
    Ok(())
}

fn push_names(text: &mut Vec<u8>, columns: &[Field]) -> Result<(), AllocError>
    ensures { OnOk result (text.new.items
        ≡ text.old.items ++ join_with_byte 9 (map (λ column. escaped column.name) columns.now)) }
{
    match columns.split_first() {
        Some((first, rest)) => {
            push_name(text, first)?;
            push_next_names(text, rest)?;
            Ok(())
        }
        None => Ok(()),
    }
}

fn push_header(text: &mut Vec<u8>, columns: &[Field]) -> Result<(), AllocError>
    ensures { OnOk result (text.new.items ≡ text.old.items ++ header_text columns.now) }
{
    push_names(text, columns)?;
    text.push(b'\n')?;
    Ok(())
}

/// The printed form of rows under the columns of their schema.
///
/// Fields stand between tabs. In names and texts a backslash, a tab, a line feed and a carriage
/// return are printed as a backslash and a character, and NULL as a backslash and `N`, so that
/// each line is one row.
pub fn result_text(alloc: Global, schema: &Schema, rows: &Rows) -> Result<Bytes, Memory>
    ensures { IfOk result (λ text. text ≡ printed_result schema.now rows.now) }
{
    let mut text = Vec::new(alloc);
    push_header(&mut text, schema.slice())?;
    push_rows(&mut text, rows.slice())?;
    text.extend_from_slice(b"\\.\n")?;
    Ok(Bytes::from_vec(text))
}
