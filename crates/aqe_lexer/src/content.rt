//! What the bytes between the quotes of a token stand for.

ghost use Rattle.std.specs.Prelude.{◌≡◌, ◌∷◌, [], ◌++◌, ◌≤◌, length, true, false, IfOk, OnOk, IsUtf8, string_bytes};
ghost use Rattle.aqe_lexer.specs.Content.{decoded, escape_of, string_gives, string_marks, unescape, name_gives, name_marks, undouble};

use aqe_base::Memory;
use std::alloc::Global;

/// The byte for which `\` and a byte stand.
fn escape_of(b: u8) -> u8
    ensures { result ≡ escape_of b }
{
    match b {
        b'n' => b'\n',
        b't' => b'\t',
        b'r' => b'\r',
        b'b' => 8,
        b'0' => 0,
        b'Z' => 26,
        _ => b,
    }
}

/// Appends what a byte of a string gives, behind a `\` or not.
fn push_string_byte(out: &mut Vec<u8>, escaped: bool, b: u8) -> Result<(), Memory>
    ensures { OnOk result (out.new.items ≡ out.old.items ++ string_gives escaped b) }
{
    if escaped {
        if b == b'%' || b == b'_' {
            out.push(b'\\')?;
            out.push(b)?;
        } else {
            out.push(escape_of(b))?;
        }
    } else if b != b'\\' {
        out.push(b)?;
    }
    Ok(())
}

/// Appends what a byte of a quoted name gives, behind a backquote or not.
fn push_name_byte(out: &mut Vec<u8>, doubled: bool, b: u8) -> Result<(), Memory>
    ensures { OnOk result (out.new.items ≡ out.old.items ++ name_gives doubled b) }
{
    if !doubled || b != b'`' {
        out.push(b)?;
    }
    Ok(())
}

/// The bytes as a text.
fn text(bytes: Vec<u8>) -> String
    requires { IsUtf8 bytes.items }
    ensures { string_bytes result ≡ bytes.items }
{
    match String::from_utf8(bytes) {
        Ok(text) => text,
        Err(_) => unreachable!(),
    }
}

/// The text for which the content of a string stands, with its escapes resolved.
///
/// `\n`, `\t`, `\r`, `\b`, `\0` and `\Z` are control characters, `\%` and `\_` stand for both
/// characters, and another character behind a `\` stands for itself.
#[tactic(auto, using(crate::proofs::ContentLemmas::decoding))]
pub fn unescaped(alloc: Global, content: &[u8]) -> Result<String, Memory>
    requires { IsUtf8 content.now }
    ensures value { IfOk result (λ text. string_bytes text ≡ unescape content.now) }
    ensures bound { IfOk result (λ text. length (string_bytes text) ≤ length content.now) }
{
    let mut bytes = Vec::with_capacity(alloc, content.len())?;
    let mut escaped = false;
    for b in content {
        push_string_byte(&mut bytes, escaped, *b)?;
        escaped = !escaped && *b == b'\\';
    }
    Ok(text(bytes))
}

/// The text for which the content of a quoted name stands: a doubled backquote is one.
#[tactic(auto, using(crate::proofs::ContentLemmas::decoding))]
pub fn undoubled(alloc: Global, content: &[u8]) -> Result<String, Memory>
    requires { IsUtf8 content.now }
    ensures value { IfOk result (λ text. string_bytes text ≡ undouble content.now) }
    ensures bound { IfOk result (λ text. length (string_bytes text) ≤ length content.now) }
{
    let mut bytes = Vec::with_capacity(alloc, content.len())?;
    let mut doubled = false;
    for b in content {
        push_name_byte(&mut bytes, doubled, *b)?;
        doubled = !doubled && *b == b'`';
    }
    Ok(text(bytes))
}
