//! Symbols.

ghost use Rattle.std.specs.Prelude.{◌≡◌, ◌≤◌, length};
ghost use Rattle.aqe_lexer.specs.Pieces.{symbol_of};
ghost use Rattle.aqe_lexer.specs.Symbols.{symbol_len};

use crate::{Fault, Piece, TokenKind};

/// The number of bytes of the longest symbol that the bytes begin with, or 0.
fn symbol_len(bytes: &[u8]) -> usize
    ensures value { result ≡ symbol_len bytes.now }
    ensures bound { result ≤ length bytes.now }
{
    match bytes {
        [b'<', b'=', b'>', ..] => 3,
        [b'=', b'=', ..] | [b'<', b'>', ..] | [b'!', b'=', ..] => 2,
        [b'<', b'=', ..] | [b'>', b'=', ..] => 2,
        [
            b'(' | b')' | b',' | b'.' | b';' | b'*' | b'+' | b'-' | b'%',
            ..
        ] => 1,
        [b'=' | b'<' | b'>', ..] => 1,
        _ => 0,
    }
}

/// The longest symbol that the bytes begin with.
pub(crate) fn symbol(bytes: &[u8]) -> Piece
    ensures { result ≡ symbol_of (symbol_len bytes.now) }
{
    match symbol_len(bytes) {
        0 => Piece::Bad {
            fault: Fault::BadByte,
            far: 0,
        },
        len => Piece::Cut {
            kind: TokenKind::Symbol,
            len,
        },
    }
}
