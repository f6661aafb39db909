//! What a piece of a source is, by the bytes that it begins with.

ghost use Rattle.std.specs.Prelude.{◌≡◌};
ghost use Rattle.aqe_lexer.specs.Bytes.{front_of};

/// What begins at a place.
#[derive(Clone, Copy, Drop)]
pub enum Front {
    /// A blank.
    Blank,
    /// A comment to the end of its line.
    Line,
    /// A comment that has an end of its own.
    Comment,
    /// A word.
    Word,
    /// A number, or another run that begins with a digit.
    Run,
    /// A string.
    String,
    /// A quoted name.
    Name,
    /// A symbol, or nothing.
    Symbol,
}

/// What the bytes begin with.
pub(crate) fn front_of(bytes: &[u8]) -> Front
    ensures { result ≡ front_of bytes.now }
{
    match bytes {
        [b' ' | b'\t' | b'\n' | b'\r', ..] => Front::Blank,
        [b'-', b'-', ..] => Front::Line,
        [b'/', b'*', ..] => Front::Comment,
        [b'A'..=b'Z' | b'a'..=b'z' | b'_', ..] => Front::Word,
        [b'0'..=b'9', ..] => Front::Run,
        [b'\'' | b'"', ..] => Front::String,
        [b'`', ..] => Front::Name,
        _ => Front::Symbol,
    }
}
