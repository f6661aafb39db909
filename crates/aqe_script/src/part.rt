//! The parts of a script between its semicolons.

ghost use Rattle.std.specs.Prelude.{◌≡◌, ◌<◌, ◌≤◌, length, All, MatchOption};
ghost use Rattle.std.specs.List.{position_or_len};
ghost use Rattle.aqe_lexer.specs.Spans.{StandsIn, InOrder};
ghost use Rattle.aqe_script.specs.Statements as spec;

use crate::key_of;
use aqe_lexer::Token;
use aqe_trees::Key;

/// Whether the token is a `;`.
fn is_semicolon(source: &str, token: Token) -> bool
    requires { StandsIn source.now token }
    ensures { result ≡ spec.is_semicolon source.now token }
{
    matches!(key_of(source, token), Some(Key::Semicolon))
}

/// How many tokens stand before the first `;`.
fn part_len(source: &str, tokens: &[Token]) -> usize
    requires { All (StandsIn source.now) tokens.now }
    ensures value { result ≡ position_or_len (spec.is_semicolon source.now) tokens.now }
    ensures bound { result ≤ length tokens.now }
{
    for (i, token) in tokens.iter().enumerate() {
        if is_semicolon(source, *token) {
            return i;
        }
    }
    tokens.len()
}

/// The tokens before the first `;`, and those behind it where there is one.
pub fn cut<'a>(source: &str, tokens: &'a [Token]) -> (&'a [Token], Option<&'a [Token]>)
    requires { All (StandsIn source.now) tokens.now }
    ensures parts { MatchOption result.1
        (spec.IsOnlyPart source.now tokens.now result.0.now)
        (λ rest. spec.IsFirstPart source.now tokens.now result.0.now rest.now) }
    ensures part { All (StandsIn source.now) result.0.now }
    ensures rest { MatchOption result.1 (Unit {0}) (λ rest. All (StandsIn source.now) rest.now) }
    ensures order { InOrder 0 tokens.now → InOrder 0 result.0.now × MatchOption result.1 (Unit {0}) (λ rest. InOrder 0 rest.now) }
    ensures shorter { MatchOption result.1 (Unit {0}) (λ rest. length rest.now < length tokens.now) }
{
    let len = part_len(source, tokens);
    if len == tokens.len() {
        return (tokens, None);
    }
    (&tokens[..len], Some(&tokens[len + 1..]))
}
