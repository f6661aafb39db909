//! A piece of a source: a gap, a token, or a fault.

ghost use Rattle.std.specs.Prelude.{◌<◌, ◌^◌, length};
ghost use Rattle.aqe_lexer.specs.Pieces.{Begins};

use crate::comment::comment;
use crate::front::{Front, front_of};
use crate::number::run_of;
use crate::quoted::{name, string};
use crate::run::{line_len, word_len};
use crate::symbol::symbol;
use crate::{Fault, TokenKind};

/// What stands at a place.
#[derive(Clone, Copy, Drop)]
pub enum Piece {
    /// A blank or a comment, with its number of bytes.
    Gap { len: usize },
    /// A token, with its number of bytes.
    Cut { kind: TokenKind, len: usize },
    /// No token, with how far behind the place the fault is.
    Bad { fault: Fault, far: usize },
}

/// The piece that begins at the first of the bytes.
pub(crate) fn piece_at(bytes: &[u8]) -> Piece
    requires some { 0 < length bytes.now }
    requires room { length bytes.now < 2 ^ 62 }
    ensures { Begins bytes.now result }
{
    match front_of(bytes) {
        Front::Blank => Piece::Gap { len: 1 },
        Front::Line => Piece::Gap {
            len: line_len(bytes),
        },
        Front::Comment => comment(&bytes[2..]),
        Front::Word => Piece::Cut {
            kind: TokenKind::Word,
            len: word_len(bytes),
        },
        Front::Run => run_of(&bytes[..word_len(bytes)]),
        Front::String => string(bytes[0], &bytes[1..]),
        Front::Name => name(&bytes[1..]),
        Front::Symbol => symbol(bytes),
    }
}
