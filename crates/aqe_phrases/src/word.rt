//! Words of a text: each terminal with a blank behind it.

ghost use Rattle.std.specs.Prelude.{◌≡◌, ◌∷◌, ◌++◌, ◌<◌, ◌≤◌, [], length, not, slice_index, true, false, IsTrue, OnOk};
ghost use Rattle.aqe_trees.specs.declared.terminal.Terminal.{Terminal};
ghost use Rattle.aqe_trees.specs.declared.terminal.Terminal.TheVariants.{Fixed, Name, Literal, Number};
ghost use Rattle.std.specs.List.{flat_map, list_all};
ghost use Rattle.aqe_lexer.specs.Bytes as bytes;
ghost use Rattle.aqe_phrases.specs.Texts as texts;
ghost use Rattle.aqe_phrases.specs.Written.{Adds, Sound};

use aqe_trees::{Key, key_text, word_key};
use aqe_values::Text;
use itoa::Buffer;
use std::alloc::AllocError;

/// Writes a reserved word or a symbol, other than the one at which a statement ends.
pub fn fixed(out: &mut Vec<u8>, key: Key) -> Result<(), AllocError>
    requires { Sound (Fixed key) }
    ensures { OnOk result (Adds (λ us. Fixed key ∷ us) out.old.items out.new.items) }
{
    out.extend_from_slice(key_text(key).as_bytes())?;
    out.push(b' ')?;
    Ok(())
}

/// Whether the byte is a letter, a digit or `_`.
fn is_word_byte(b: u8) -> bool
    ensures { result ≡ bytes.is_word_byte b }
{
    b.is_ascii_alphanumeric() || b == b'_'
}

/// Whether the text begins with a letter or `_`.
fn begins_word(text: &[u8]) -> bool
    ensures { result ≡ bytes.is_word_start (slice_index text.now 0) }
{
    matches!(text, [b'A'..=b'Z' | b'a'..=b'z' | b'_', ..])
}

/// Whether the text is made of letters, digits and `_`.
fn is_all_word_bytes(text: &[u8]) -> bool
    ensures { result ≡ list_all bytes.is_word_byte text.now }
{
    text.iter().all(|b| is_word_byte(*b))
}

/// Whether the name stands as it is.
fn is_bare(text: &str) -> bool
    ensures { result ≡ texts.is_bare text.now }
{
    begins_word(text.as_bytes()) && is_all_word_bytes(text.as_bytes()) && word_key(text).is_none()
}

/// Writes a byte within backquotes.
fn doubled(out: &mut Vec<u8>, b: u8) -> Result<(), AllocError>
    ensures { OnOk result (out.new.items ≡ out.old.items ++ texts.doubled b) }
{
    if b == b'`' {
        out.push(b'`')?;
    }
    out.push(b)?;
    Ok(())
}

/// Writes a byte within a string.
fn escaped(out: &mut Vec<u8>, b: u8) -> Result<(), AllocError>
    ensures { OnOk result (out.new.items ≡ out.old.items ++ texts.escaped b) }
{
    if b == b'\\' || b == b'\'' {
        out.push(b'\\')?;
    }
    out.push(b)?;
    Ok(())
}

/// Writes the bytes within backquotes.
fn all_doubled(out: &mut Vec<u8>, text: &[u8]) -> Result<(), AllocError>
    ensures { OnOk result (out.new.items ≡ out.old.items ++ flat_map texts.doubled text.now) }
{
    'bytes: for b in text {
        doubled(out, *b)?;
    }
    Ok(())
}

/// Writes the bytes within a string.
fn all_escaped(out: &mut Vec<u8>, text: &[u8]) -> Result<(), AllocError>
    ensures { OnOk result (out.new.items ≡ out.old.items ++ flat_map texts.escaped text.now) }
{
    'bytes: for b in text {
        escaped(out, *b)?;
    }
    Ok(())
}

/// Writes the name between backquotes.
fn quoted(out: &mut Vec<u8>, text: &[u8]) -> Result<(), AllocError>
    ensures { OnOk result (out.new.items ≡ out.old.items ++ texts.name_text text.now true) }
{
    out.push(b'`')?;
    all_doubled(out, text)?;
    out.push(b'`')?;
    Ok(())
}

/// Writes a name, between backquotes where it has to be.
pub fn name(out: &mut Vec<u8>, text: &Text) -> Result<(), AllocError>
    ensures { OnOk result (0 < length text.now
        → Adds (λ us. Name text.now (not (texts.is_bare text.now)) ∷ us) out.old.items out.new.items) }
{
    let name = text.as_str();
    if is_bare(name) {
        out.extend_from_slice(name.as_bytes())?;
    } else {
        quoted(out, name.as_bytes())?;
    }
    out.push(b' ')?;
    Ok(())
}

/// Writes a string between `'`.
pub fn literal(out: &mut Vec<u8>, text: &Text) -> Result<(), AllocError>
    ensures { OnOk result (Adds (λ us. Literal text.now ∷ us) out.old.items out.new.items) }
{
    out.push(b'\'')?;
    all_escaped(out, text.as_str().as_bytes())?;
    out.push(b'\'')?;
    out.push(b' ')?;
    Ok(())
}

/// Writes a number.
pub fn number(out: &mut Vec<u8>, value: u64, long: bool) -> Result<(), AllocError>
    ensures { OnOk result (value ≤ 9223372036854775808
        → Adds (λ us. Number value long ∷ us) out.old.items out.new.items) }
{
    let mut digits = Buffer::new();
    out.extend_from_slice(digits.format(value).as_bytes())?;
    if long {
        out.push(b'L')?;
    }
    out.push(b' ')?;
    Ok(())
}

/// Writes a word that is not reserved.
pub fn word(out: &mut Vec<u8>, text: &str) -> Result<(), AllocError>
    ensures { OnOk result (IsTrue (texts.is_bare text.now)
        → Adds (λ us. Name text.now false ∷ us) out.old.items out.new.items) }
{
    out.extend_from_slice(text.as_bytes())?;
    out.push(b' ')?;
    Ok(())
}
