//! SET key = value.

ghost use Rattle.std.specs.Prelude.{◌≡◌, ◌≤◌, ◌∷◌, ◌<◌, [], length, All, IfOk, MatchOption, MatchResult, string_bytes, Some};
ghost use Rattle.aqe_values.specs.Bounds.{text_limit};
ghost use Rattle.aqe_lexer.specs.Spans.{StandsIn, InOrder};
ghost use Rattle.aqe_lexer.specs.declared.token.TokenKind.TheVariants as kind;
ghost use Rattle.aqe_script.specs.declared.setting.SetFault.TheVariants as fault;
ghost use Rattle.aqe_script.specs.Settings.{IsSet, value_of, last_of};
ghost use Rattle.aqe_script.specs.SettingSteps.{KeyRead, NoKey, NotFirst, IsRefusal};
ghost use Rattle.aqe_script.specs.Terminals as spec;

use crate::key_of;
use crate::terminal::copied;
use crate::token_text::{content_of, text_of};
use aqe_base::Memory;
use aqe_lexer::{Token, TokenKind, unescaped};
use aqe_trees::{Key, SetForm};
use aqe_values::Text;
use std::alloc::{AllocError, Global};

/// Why tokens are no SET.
#[derive(Clone, Copy, Debug, PartialEq, Eq, Drop)]
pub enum SetFault {
    /// They are none.
    Refused {
        /// How many tokens were left where reading stopped, for a message.
        left: usize,
    },
    /// An allocation failed.
    Memory,
}

impl From<AllocError> for SetFault {
    ghost from_gives = { λ _ e. e ≡ fault.Memory };

    fn from(_error: AllocError) -> SetFault {
        SetFault::Memory
    }
}

impl From<Memory> for SetFault {
    ghost from_gives = { λ _ e. e ≡ fault.Memory };

    fn from(_error: Memory) -> SetFault {
        SetFault::Memory
    }
}

/// The first token, and those behind it.
fn next<'a>(source: &str, tokens: &'a [Token]) -> Option<(Token, &'a [Token])>
    requires { All (StandsIn source.now) tokens.now }
    ensures next { MatchOption result (tokens.now ≡ []) (λ x. tokens.now ≡ x.0 ∷ x.1.now) }
    ensures stands { MatchOption result (Unit {0}) (λ x. StandsIn source.now x.0 × All (StandsIn source.now) x.1.now) }
{
    match tokens {
        [] => None,
        [first, rest @ ..] => Some((*first, rest)),
    }
}

/// The word that comes first, and the tokens behind it.
fn word<'a>(source: &str, tokens: &'a [Token]) -> Option<(Token, &'a [Token])>
    requires { All (StandsIn source.now) tokens.now }
    ensures word { MatchOption result
        ((t : _) (us : _) → tokens.now ≡ t ∷ us → t.kind ≡ kind.Word → ⊥)
        (λ x. (tokens.now ≡ x.0 ∷ x.1.now) × (x.0.kind ≡ kind.Word)) }
    ensures stands { MatchOption result (Unit {0}) (λ x. StandsIn source.now x.0 × All (StandsIn source.now) x.1.now) }
{
    match next(source, tokens) {
        Some((first, rest)) if first.kind == TokenKind::Word => Some((first, rest)),
        _ => None,
    }
}

/// The word or symbol, where it comes first, and the tokens behind it.
fn behind<'a>(source: &str, tokens: &'a [Token], wanted: Key) -> Option<(Token, &'a [Token])>
    requires { All (StandsIn source.now) tokens.now }
    ensures key { MatchOption result
        (NotFirst source.now wanted tokens.now)
        (λ x. (tokens.now ≡ x.0 ∷ x.1.now) × (spec.key_of source.now x.0 ≡ Some wanted)) }
    ensures stands { MatchOption result (Unit {0}) (λ x. All (StandsIn source.now) x.1.now) }
{
    let (first, rest) = next(source, tokens)?;
    match key_of(source, first) {
        Some(key) if key == wanted => Some((first, rest)),
        _ => None,
    }
}

/// The key that comes first, and the tokens behind it.
fn setting_key<'a>(
    alloc: Global,
    source: &str,
    tokens: &'a [Token],
) -> Result<(String, &'a [Token]), SetFault>
    requires { All (StandsIn source.now) tokens.now }
    ensures key { MatchResult result
        (λ x. KeyRead source.now tokens.now x.1.now (string_bytes x.0))
        (λ e. IsRefusal e → NoKey source.now tokens.now) }
    ensures stands { MatchResult result (λ x. All (StandsIn source.now) x.1.now) (λ e. Unit {0}) }
{
    let mut key = String::new(alloc);
    let Some((first, mut rest)) = word(source, tokens) else {
        return Err(SetFault::Refused { left: tokens.len() });
    };
    key.push_str(text_of(source, first))?;
    'points: while let Some((_, after)) = behind(source, rest, Key::Dot) {
        let Some((next, left)) = word(source, after) else {
            return Err(SetFault::Refused { left: after.len() });
        };
        key.push('.')?;
        key.push_str(text_of(source, next))?;
        rest = left;
    }
    Ok((key, rest))
}

/// The value that the tokens are.
fn setting_value(alloc: Global, source: &str, first: Token, more: &[Token]) -> Result<Text, Memory>
    requires first { StandsIn source.now first }
    requires more { All (StandsIn source.now) more.now }
    requires size { length source.now ≤ text_limit }
    ensures { IfOk result (λ t. t ≡ value_of source.now first more.now) }
{
    let Some(last) = more.last() else {
        if first.kind != TokenKind::Literal {
            return copied(alloc, text_of(source, first));
        }
        let text = unescaped(alloc, content_of(source, first))?;
        return copied(alloc, text.as_str());
    };
    if last.end < first.start {
        return copied(alloc, "");
    }
    copied(alloc, &source[first.start as usize..last.end as usize])
}

/// SET key = value, where the tokens are that.
pub fn read_setting(alloc: Global, source: &str, tokens: &[Token]) -> Result<SetForm, SetFault>
    requires stand { All (StandsIn source.now) tokens.now }
    requires order { InOrder 0 tokens.now }
    requires size { length source.now ≤ text_limit }
    ensures { MatchResult result
        (λ form. IsSet source.now form tokens.now)
        (λ e. IsRefusal e → (form : _) → IsSet source.now form tokens.now → ⊥) }
{
    let Some((_, rest)) = behind(source, tokens, Key::Set) else {
        return Err(SetFault::Refused { left: tokens.len() });
    };
    let (key, left) = setting_key(alloc, source, rest)?;
    let Some((_, after)) = behind(source, left, Key::Equal) else {
        return Err(SetFault::Refused { left: left.len() });
    };
    let Some((first, more)) = next(source, after) else {
        return Err(SetFault::Refused { left: 0 });
    };
    let value = setting_value(alloc, source, first, more)?;
    let key = copied(alloc, key.as_str())?;
    Ok(SetForm { key, value })
}
