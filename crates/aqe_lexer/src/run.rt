//! Runs of bytes of one class.

ghost use Rattle.std.specs.Prelude.{◌≡◌, ◌≤◌, length};
ghost use Rattle.std.specs.List.{prefix_len};
ghost use Rattle.aqe_lexer.specs.Bytes.{is_blank, is_in_line, is_word_byte};

/// Whether a word goes on with the byte.
fn is_word_byte(b: u8) -> bool
    ensures { result ≡ is_word_byte b }
{
    b.is_ascii_alphanumeric() || b == b'_'
}

/// How many letters, digits and `_` the bytes begin with.
pub(crate) fn word_len(bytes: &[u8]) -> usize
    ensures value { result ≡ prefix_len is_word_byte bytes.now }
    ensures bound { result ≤ length bytes.now }
{
    bytes.iter().take_while(|b| is_word_byte(**b)).count()
}

/// How many bytes stand before the first line feed.
pub(crate) fn line_len(bytes: &[u8]) -> usize
    ensures value { result ≡ prefix_len is_in_line bytes.now }
    ensures bound { result ≤ length bytes.now }
{
    bytes.iter().take_while(|b| **b != b'\n').count()
}
