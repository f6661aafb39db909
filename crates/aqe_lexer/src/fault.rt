//! Why a source has no tokens.

ghost use Rattle.std.specs.Prelude.{◌≡◌};
ghost use Rattle.aqe_lexer.specs.Faults.{is_open, told_of};

/// What is wrong at a place where no token stands.
#[derive(Clone, Copy, Drop)]
pub enum Fault {
    /// A byte that begins no token, or a quoted name without content.
    BadByte,
    /// A comment without its end.
    OpenComment,
    /// A string without its end.
    OpenString,
    /// A quoted name without its end.
    OpenQuote,
    /// A `\` before a character that it may not stand before.
    BadEscape,
    /// A number above 9223372036854775808.
    WideNumber,
}

/// Why a source has no token list, with the offset of the first place where none can stand.
#[derive(Clone, Copy, Debug, PartialEq, Eq, Drop)]
pub enum LexFault {
    /// A byte that begins no token, is no UTF-8 or begins a comment without its end, or a quoted
    /// name without content.
    BadByte { at: u64 },
    /// The quote that begins a string without its end.
    OpenString { at: u64 },
    /// The backquote that begins a name without its end.
    OpenQuote { at: u64 },
    /// A `\` before a character that it may not stand before.
    BadEscape { at: u64 },
    /// The first digit of a number above 9223372036854775808.
    WideNumber { at: u64 },
    /// An allocation failed.
    Memory,
}

/// Whether the fault is that something has no end.
pub(crate) fn is_open(fault: Fault) -> bool
    ensures { result ≡ is_open fault }
{
    match fault {
        Fault::OpenComment | Fault::OpenString | Fault::OpenQuote => true,
        Fault::BadByte | Fault::BadEscape | Fault::WideNumber => false,
    }
}

/// The fault as callers are told it.
pub(crate) fn told(fault: Fault, at: usize) -> LexFault
    ensures { result ≡ told_of fault at }
{
    let at = at as u64;
    match fault {
        Fault::BadByte | Fault::OpenComment => LexFault::BadByte { at },
        Fault::OpenString => LexFault::OpenString { at },
        Fault::OpenQuote => LexFault::OpenQuote { at },
        Fault::BadEscape => LexFault::BadEscape { at },
        Fault::WideNumber => LexFault::WideNumber { at },
    }
}
