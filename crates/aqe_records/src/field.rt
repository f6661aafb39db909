//! A field of a file as a value of its column's type.

ghost use Rattle.std.specs.Prelude.{◌≡◌, ◌≤◌, length, IfOk};
ghost use Rattle.std.specs.Option.{ForSome, option_map};
ghost use Rattle.aqe_values.specs.Bounds.{text_limit};
ghost use Rattle.aqe_records.specs.Fields.{big_int_value, boolean_value, field_value, int_value};
ghost use Rattle.aqe_records.specs.Records.{cell_value};

use aqe_values::{Memory, SqlType, Text, Value};
use std::alloc::Global;

fn int_of(field: &str) -> Value
    ensures { result ≡ int_value field.now }
{
    match field.parse::<i32>() {
        Ok(n) => Value::Int(n),
        Err(_) => Value::Null,
    }
}

fn big_int_of(field: &str) -> Value
    ensures { result ≡ big_int_value field.now }
{
    match field.parse::<i64>() {
        Ok(n) => Value::BigInt(n),
        Err(_) => Value::Null,
    }
}

fn boolean_of(field: &str) -> Value
    ensures { result ≡ boolean_value field.now }
{
    if field.eq_ignore_ascii_case("true") {
        Value::Boolean(true)
    } else if field.eq_ignore_ascii_case("false") {
        Value::Boolean(false)
    } else {
        Value::Null
    }
}

fn value_of(alloc: Global, kind: SqlType, field: &str) -> Result<Value, Memory>
    requires { length field.now ≤ text_limit }
    ensures { IfOk result (λ v. v ≡ field_value kind field.now) }
{
    if field.is_empty() {
        return Ok(Value::Null);
    }
    match kind {
        SqlType::NullType => Ok(Value::Null),
        SqlType::Boolean => Ok(boolean_of(field)),
        SqlType::Int => Ok(int_of(field)),
        SqlType::BigInt => Ok(big_int_of(field)),
        SqlType::Text => {
            let text = Text::copy_of(alloc, field)?;
            Ok(Value::Text(text))
        }
    }
}

/// The value of a field that may be missing.
pub(crate) fn cell_of(alloc: Global, kind: SqlType, field: Option<&str>) -> Result<Value, Memory>
    requires { ForSome field (λ text. length text.now ≤ text_limit) }
    ensures { IfOk result (λ v. v ≡ cell_value kind (option_map (λ text. text.now) field.entry)) }
{
    match field {
        Some(field) => value_of(alloc, kind, field),
        None => Ok(Value::Null),
    }
}
