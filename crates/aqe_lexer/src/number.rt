//! Numbers, and what they are worth.

ghost use Rattle.std.specs.Prelude.{◌≡◌, ◌≤◌, ◌^◌, ◌+◌, ◌*◌, length, take, IsTrue, MatchOption};
ghost use Rattle.std.specs.Char.{digit_value, is_ascii_digit};
ghost use Rattle.std.specs.List.{AllPass};
ghost use Rattle.std.specs.Str.Parse.{digits_value};
ghost use Rattle.aqe_lexer.specs.Numbers.{digits_len, number_value, number_limit, is_long, is_number, run_of};

use crate::{Fault, Piece, TokenKind};

/// The greatest number that a token may write. It stands only behind a sign.
const NUMBER_LIMIT: u64 = 9_223_372_036_854_775_808;

/// How many digits the text begins with.
fn digits_len(text: &[u8]) -> usize
    ensures value { result ≡ digits_len text.now }
    ensures bound { result ≤ length text.now }
    ensures digits { AllPass is_ascii_digit (take result text.now) }
{
    text.iter().take_while(|b| b.is_ascii_digit()).count()
}

/// The value with one more digit behind it, or `None` where it passes 64 bits.
fn with_digit(value: u64, digit: u8) -> Option<u64>
    requires { IsTrue (is_ascii_digit digit) }
    ensures { MatchOption result (2 ^ 64 ≤ value * 10 + digit_value digit)
        (λ more. more ≡ value * 10 + digit_value digit) }
{
    value.checked_mul(10)?.checked_add(u64::from(digit - b'0'))
}

/// The number that the digits write, or `None` where it passes 64 bits.
#[tactic(auto, using(crate::proofs::NumberLemmas::reading))]
fn digits_value(digits: &[u8]) -> Option<u64>
    requires { AllPass is_ascii_digit digits.now }
    ensures { MatchOption result (2 ^ 64 ≤ digits_value 10 digits.now)
        (λ value. value ≡ digits_value 10 digits.now) }
{
    let mut value = 0u64;
    for digit in digits {
        match with_digit(value, *digit) {
            Some(more) => value = more,
            None => return None,
        }
    }
    Some(value)
}

/// Whether an `L` or `l` stands behind the digits of a number's text.
pub fn is_long(text: &[u8]) -> bool
    ensures { result ≡ is_long text.now }
{
    let digits = digits_len(text);
    matches!(text.get(digits), Some(b'L' | b'l'))
}

/// The value of a number's text, without its sign and whether or not it ends in `L`.
pub fn number_value(text: &[u8]) -> u64
    requires { number_value text.now ≤ number_limit }
    ensures { result ≡ number_value text.now }
{
    digits_value(&text[..digits_len(text)]).unwrap_or(0)
}

/// Whether the run is digits alone, or digits and one `L` or `l`.
fn is_number(run: &[u8]) -> bool
    ensures { result ≡ is_number run.now }
{
    let digits = digits_len(run);
    match &run[digits..] {
        [] | [b'L' | b'l'] => true,
        _ => false,
    }
}

/// What a run of letters, digits and `_` is that begins with a digit.
pub(crate) fn run_of(run: &[u8]) -> Piece
    ensures { result ≡ run_of run.now }
{
    if !is_number(run) {
        return Piece::Cut {
            kind: TokenKind::Mixed,
            len: run.len(),
        };
    }
    match digits_value(&run[..digits_len(run)]) {
        Some(value) if value <= NUMBER_LIMIT => Piece::Cut {
            kind: TokenKind::Number,
            len: run.len(),
        },
        _ => Piece::Bad {
            fault: Fault::WideNumber,
            far: 0,
        },
    }
}
