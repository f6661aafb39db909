//! CAST between the four types, and the number of characters of a text.

ghost use Rattle.std.specs.Prelude.{◌≡◌, ◌-◌, ◌^◌, ◌≤◌, length, min, map, reverse, take_while, chars, IfOk};
ghost use Rattle.std.specs.Char.{to_ascii_lowercase, is_ascii_digit};
ghost use Rattle.std.specs.List.{list_all};
ghost use Rattle.std.specs.Int.{w32, int_wrap};
ghost use Rattle.std.specs.Fmt.{signed_decimal};
ghost use Rattle.aqe_values.specs.Bounds.{text_limit};
ghost use Rattle.aqe_scalar.specs.Casts as spec;

use aqe_values::{Memory, Text, Value};
use std::alloc::Global;

/// CAST AS INT.
pub fn as_int(value: &Value) -> Value
    ensures { result ≡ spec.as_int value.now }
{
    match value {
        Value::Null => Value::Null,
        Value::Boolean(b) => Value::Int(*b as i32),
        Value::Int(n) => Value::Int(*n),
        Value::BigInt(n) => Value::Int(low_half(*n)),
        Value::Text(text) => match int_in(text.as_str().as_bytes()) {
            Some(n) => Value::Int(n),
            None => Value::Null,
        },
    }
}

/// CAST AS BIGINT.
pub fn as_bigint(value: &Value) -> Value
    ensures { result ≡ spec.as_bigint value.now }
{
    match value {
        Value::Null => Value::Null,
        Value::Boolean(b) => Value::BigInt(*b as i64),
        Value::Int(n) => Value::BigInt(*n as i64),
        Value::BigInt(n) => Value::BigInt(*n),
        Value::Text(text) => match number_in(text.as_str().as_bytes()) {
            Some(n) => Value::BigInt(n),
            None => Value::Null,
        },
    }
}

/// CAST AS BOOLEAN.
pub fn as_boolean(value: &Value) -> Value
    ensures { result ≡ spec.as_boolean value.now }
{
    match value {
        Value::Null => Value::Null,
        Value::Boolean(b) => Value::Boolean(*b),
        Value::Int(n) => Value::Boolean(*n != 0),
        Value::BigInt(n) => Value::Boolean(*n != 0),
        Value::Text(text) => boolean_in(text.as_str().as_bytes()),
    }
}

/// CAST AS STRING.
pub fn as_text(alloc: Global, value: &Value) -> Result<Value, Memory>
    ensures { IfOk result (λ v. v ≡ spec.as_text value.now) }
{
    match value {
        Value::Null => Ok(Value::Null),
        Value::Boolean(true) => text_value(alloc, "true"),
        Value::Boolean(false) => text_value(alloc, "false"),
        Value::Int(n) => decimal_text(alloc, *n as i64),
        Value::BigInt(n) => decimal_text(alloc, *n),
        Value::Text(text) => text_value(alloc, text.as_str()),
    }
}

/// The number of characters of a text.
pub fn character_count(value: &Value) -> Value
    ensures { result ≡ spec.character_count value.now }
{
    match value {
        Value::Text(text) => Value::Int(characters(text.as_str()) as i32),
        _ => Value::Null,
    }
}

/// The number of characters.
fn characters(text: &str) -> usize
    ensures value { result ≡ length (chars text.now) }
    ensures bound { result ≤ length text.now }
{
    text.chars().count()
}

/// The text as a value.
fn text_value(alloc: Global, text: &str) -> Result<Value, Memory>
    requires { length text.now ≤ text_limit }
    ensures { IfOk result (λ v. v ≡ Value.Text text.now) }
{
    let text = Text::copy_of(alloc, text)?;
    Ok(Value::Text(text))
}

/// The decimal digits of the number, with its sign where it is negative.
fn decimal_text(alloc: Global, n: i64) -> Result<Value, Memory>
    ensures { IfOk result (λ v. v ≡ Value.Text (signed_decimal n)) }
{
    let digits = n.to_string(alloc)?;
    text_value(alloc, digits.as_str())
}

/// The low 32 bits.
fn low_half(n: i64) -> i32
    ensures { result ≡ int_wrap w32 n }
{
    (n.rem_euclid(1 << 32) as u32).cast_signed()
}

/// What a text says as a BOOLEAN.
fn boolean_in(text: &[u8]) -> Value
    ensures { result ≡ spec.boolean_in text.now }
{
    let text = trimmed(text);
    if says_true(text) {
        Value::Boolean(true)
    } else if says_false(text) {
        Value::Boolean(false)
    } else {
        Value::Null
    }
}

fn says_true(text: &[u8]) -> bool
    ensures { result ≡ spec.says_true text.now }
{
    spells(text, b"t")
        || spells(text, b"true")
        || spells(text, b"y")
        || spells(text, b"yes")
        || spells(text, b"1")
}

fn says_false(text: &[u8]) -> bool
    ensures { result ≡ spec.says_false text.now }
{
    spells(text, b"f")
        || spells(text, b"false")
        || spells(text, b"n")
        || spells(text, b"no")
        || spells(text, b"0")
}

/// Whether the text is the word, which is in small letters, in letters of either case.
fn spells(text: &[u8], word: &[u8]) -> bool
    requires { map to_ascii_lowercase word.now ≡ word.now }
    ensures { result ≡ spec.spells word.now text.now }
{
    text.eq_ignore_ascii_case(word)
}

/// The number that a text says, where it is one of INT.
#[tactic(auto, using(crate::proofs::Ranges::narrower))]
fn int_in(text: &[u8]) -> Option<i32>
    ensures { result ≡ spec.in_range spec.fits_int (spec.number_in text.now) }
{
    narrowed(number_in(text)?)
}

/// The number, where it is one of INT.
fn narrowed(n: i64) -> Option<i32>
    ensures { result ≡ spec.in_range spec.fits_int (Some n) }
{
    i32::try_from(n).ok()
}

/// The number that a text says, where it is one of BIGINT.
fn number_in(text: &[u8]) -> Option<i64>
    ensures { result ≡ spec.in_range spec.fits_bigint (spec.number_in text.now) }
{
    let text = trimmed(text);
    number_after_sign(is_negative(text), without_sign(text))
}

/// The number of a text of digits, and perhaps a point and digits that are cut off.
fn number_after_sign(negative: bool, text: &[u8]) -> Option<i64>
    ensures { result ≡ spec.in_range spec.fits_bigint (spec.unsigned_number_in negative text.now) }
{
    let whole = digits_in_front(text);
    if whole == 0 || !is_cut_off(&text[whole..]) {
        return None;
    }
    let size = number_of_digits(&text[..whole]);
    if negative {
        0i64.checked_sub_unsigned(size)
    } else {
        0i64.checked_add_unsigned(size)
    }
}

/// How many digits the text begins with.
fn digits_in_front(text: &[u8]) -> usize
    ensures value { result ≡ length (spec.whole_digits text.now) }
    ensures bound { result ≤ length text.now }
{
    text.iter().take_while(|c| c.is_ascii_digit()).count()
}

/// Whether the text begins with `-`.
fn is_negative(text: &[u8]) -> bool
    ensures { result ≡ spec.is_negative text.now }
{
    matches!(text, [b'-', ..])
}

/// The text without a sign in front.
fn without_sign(text: &[u8]) -> &[u8]
    ensures { result.now ≡ spec.without_sign text.now }
{
    match text {
        [b'+' | b'-', rest @ ..] => rest,
        _ => text,
    }
}

/// Whether the text is empty, or a point and digits.
fn is_cut_off(text: &[u8]) -> bool
    ensures { result ≡ spec.is_cut_off text.now }
{
    match text {
        [] => true,
        [first, rest @ ..] => *first == b'.' && are_digits(rest),
    }
}

/// Whether the text has digits, and nothing else.
fn are_digits(text: &[u8]) -> bool
    ensures { result ≡ spec.are_digits text.now }
{
    !text.is_empty() && all_digits(text)
}

/// Whether the text has nothing but digits.
fn all_digits(text: &[u8]) -> bool
    ensures { result ≡ list_all is_ascii_digit text.now }
{
    text.iter().all(|c| c.is_ascii_digit())
}

/// The number that digits stand for, or the greatest of 64 bits where that is less.
fn number_of_digits(digits: &[u8]) -> u64
    ensures { result ≡ min (spec.number_of_digits digits.now) (2 ^ 64 - 1) }
{
    let mut number: u64 = 0;
    'digits: for digit in digits {
        let size = digit.saturating_sub(b'0') as u64;
        number = number.saturating_mul(10).saturating_add(size);
    }
    number
}

/// The text without the spaces at its ends.
fn trimmed(text: &[u8]) -> &[u8]
    ensures { result.now ≡ spec.trimmed text.now }
{
    without_end(without_front(text))
}

/// The text without the spaces in front.
fn without_front(text: &[u8]) -> &[u8]
    ensures { result.now ≡ spec.without_front text.now }
{
    &text[spaces_in_front(text)..]
}

/// The text without the spaces at its end.
fn without_end(text: &[u8]) -> &[u8]
    ensures { result.now ≡ spec.without_end text.now }
{
    &text[..text.len() - spaces_at_end(text)]
}

/// How many spaces the text begins with.
fn spaces_in_front(text: &[u8]) -> usize
    ensures value { result ≡ length (take_while spec.is_space text.now) }
    ensures bound { result ≤ length text.now }
{
    text.iter().take_while(|c| **c == b' ').count()
}

/// How many spaces the text ends with.
fn spaces_at_end(text: &[u8]) -> usize
    ensures value { result ≡ length (take_while spec.is_space (reverse text.now)) }
    ensures bound { result ≤ length text.now }
{
    text.iter().rev().take_while(|c| **c == b' ').count()
}
