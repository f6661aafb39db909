//! A token and where it stands.

use aqe_base::Listing;

/// What a token is.
#[derive(Clone, Copy, Debug, PartialEq, Eq, Drop)]
pub enum TokenKind {
    /// A letter or `_`, then letters, digits and `_`.
    Word,
    /// A name between backquotes, with them.
    Quoted,
    /// A string between quotes, with them.
    Literal,
    /// Digits, with or without an `L` behind them.
    Number,
    /// A run of letters, digits and `_` that begins with a digit and is no number, as `64MB`.
    Mixed,
    /// A mark of one to three bytes, as `<=>`.
    Symbol,
}

/// A token: the bytes of the source from `start` up to `end`, without the byte at `end`.
#[derive(Clone, Copy, Debug, PartialEq, Eq, Drop)]
pub struct Token {
    /// What it is.
    pub kind: TokenKind,
    /// The offset of its first byte.
    pub start: u64,
    /// The offset behind its last byte.
    pub end: u64,
}

/// The tokens of a source, in the order in which they stand there.
pub type Tokens = Listing<Token>;
