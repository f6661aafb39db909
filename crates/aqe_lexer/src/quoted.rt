//! Strings and quoted names.

ghost use Rattle.std.specs.Prelude.{◌≡◌, ◌<◌, ◌≤◌, ◌+◌, length, drop, take, ℕ, None, Some, MatchOption};
ghost use Rattle.aqe_lexer.specs.Parts.{EndsIn, step_by, string_part, string_step, string_end, name_part, name_end};

use crate::skip::behind;
use crate::{Fault, Piece, TokenKind};

/// The number of bytes of the part of a string that the bytes begin with, or 0.
fn string_part(quote: u8, bytes: &[u8]) -> usize
    ensures value { result ≡ string_part quote bytes.now }
    ensures bound { result ≤ length bytes.now }
{
    match bytes {
        [] => 0,
        [b, ..] if *b == quote => 0,
        [b'\\', b'1'..=b'9' | b'u' | b'U', ..] => 0,
        [b'\\', b'0', b'0'..=b'9', ..] => 0,
        [b'\\', _, ..] => 2,
        [b'\\'] => 0,
        _ => 1,
    }
}

/// What is left behind the part of a string that the bytes begin with, if one stands there.
fn string_step(quote: u8, bytes: &[u8]) -> Option<&[u8]>
    ensures { MatchOption result
        (string_step quote bytes.now ≡ None)
        (λ rest. (string_step quote bytes.now ≡ Some rest.now) × (length rest.now < length bytes.now)) }
{
    behind(bytes, string_part(quote, bytes))
}

/// What a string is, where its parts stop.
fn string_end(quote: u8, bytes: &[u8], rest: &[u8]) -> Piece
    requires { length rest.now ≤ length bytes.now }
    ensures { result ≡ string_end quote bytes.now rest.now }
{
    let read = bytes.len() - rest.len();
    match rest {
        [] => Piece::Bad {
            fault: Fault::OpenString,
            far: 0,
        },
        [b, ..] if *b == quote => Piece::Cut {
            kind: TokenKind::Literal,
            len: read + 2,
        },
        [_] => Piece::Bad {
            fault: Fault::OpenString,
            far: 0,
        },
        _ => Piece::Bad {
            fault: Fault::BadEscape,
            far: read + 1,
        },
    }
}

/// What begins with a quote, by the bytes behind it.
#[tactic(auto, using(crate::proofs::PartLemmas::going))]
pub(crate) fn string(quote: u8, bytes: &[u8]) -> Piece
    ensures { EndsIn (step_by (string_part quote)) bytes.now (string_end quote bytes.now) result }
{
    let mut rest = bytes;
    'parts: while let Some(more) = string_step(quote, rest) {
        rest = more;
    }
    string_end(quote, bytes, rest)
}

/// The number of bytes of the part of a quoted name that the bytes begin with, or 0.
fn name_part(bytes: &[u8]) -> usize
    ensures value { result ≡ name_part bytes.now }
    ensures bound { result ≤ length bytes.now }
{
    match bytes {
        [] => 0,
        [b'`', b'`', ..] => 2,
        [b'`', ..] => 0,
        _ => 1,
    }
}

/// What is left behind the part of a quoted name that the bytes begin with, if one stands there.
fn name_step(bytes: &[u8]) -> Option<&[u8]>
    ensures { MatchOption result (step_by name_part bytes.now ≡ None) (λ rest.
        (step_by name_part bytes.now ≡ Some rest.now)
        × (length rest.now < length bytes.now)) }
{
    behind(bytes, name_part(bytes))
}

/// What a quoted name is, where its parts stop.
fn name_end(bytes: &[u8], rest: &[u8]) -> Piece
    requires { length rest.now ≤ length bytes.now }
    ensures { result ≡ name_end bytes.now rest.now }
{
    let content = bytes.len() - rest.len();
    if rest.is_empty() {
        Piece::Bad {
            fault: Fault::OpenQuote,
            far: 0,
        }
    } else if content == 0 {
        Piece::Bad {
            fault: Fault::BadByte,
            far: 0,
        }
    } else {
        Piece::Cut {
            kind: TokenKind::Quoted,
            len: content + 2,
        }
    }
}

/// What begins with a backquote, by the bytes behind it.
#[tactic(auto, using(crate::proofs::PartLemmas::going))]
pub(crate) fn name(bytes: &[u8]) -> Piece
    ensures { EndsIn (step_by name_part) bytes.now (name_end bytes.now) result }
{
    let mut rest = bytes;
    'parts: while let Some(more) = name_step(rest) {
        rest = more;
    }
    name_end(bytes, rest)
}
