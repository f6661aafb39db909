//! How deep parentheses and CASEs are open.

ghost use Rattle.std.specs.Prelude.{◌≡◌, ◌↔◌, All, IsTrue, cond};
ghost use Rattle.aqe_lexer.specs.Spans.{StandsIn};
ghost use Rattle.aqe_script.specs.Depth as spec;

use crate::{cut, key_of};
use aqe_lexer::Token;
use aqe_trees::Key;

/// The greatest open depth, and the greatest nesting, that a reader takes.
pub(crate) const DEPTH_LIMIT: usize = 128;

/// 1 where the key opens a pair of parentheses or a CASE, and else 0.
fn opens(key: Option<Key>) -> usize
    ensures { result ≡ cond (spec.key_opens key) 1 0 }
{
    match key {
        Some(Key::Open | Key::Case) => 1,
        _ => 0,
    }
}

/// 1 where the key closes one, and else 0.
fn closes(key: Option<Key>) -> usize
    ensures { result ≡ cond (spec.key_closes key) 1 0 }
{
    match key {
        Some(Key::Close | Key::End) => 1,
        _ => 0,
    }
}

/// Whether, up to some token of the part, more than the limit are open.
fn is_part_too_open(source: &str, part: &[Token]) -> bool
    requires { All (StandsIn source.now) part.now }
    ensures { IsTrue result ↔ spec.IsOpenTooDeep source.now part.now }
{
    let mut opened = 0usize;
    let mut closed = 0usize;
    for token in part {
        let key = key_of(source, *token);
        opened += opens(key);
        closed += closes(key);
        if opened > closed + DEPTH_LIMIT {
            return true;
        }
    }
    false
}

/// Whether somewhere in the script more than 128 parentheses and CASEs are open.
pub fn is_too_open(source: &str, tokens: &[Token]) -> bool
    requires { All (StandsIn source.now) tokens.now }
    ensures { IsTrue result ↔ spec.IsTooOpen source.now tokens.now }
{
    let mut rest = tokens;
    'parts: loop {
        let (part, more) = cut(source, rest);
        if is_part_too_open(source, part) {
            return true;
        }
        match more {
            Some(more) => rest = more,
            None => return false,
        }
    }
}
