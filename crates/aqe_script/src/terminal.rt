//! The terminals of the grammar that tokens are.

ghost use Rattle.std.specs.Prelude.{◌≡◌, ◌≤◌, length, All, IfOk};
ghost use Rattle.aqe_values.specs.Bounds.{text_limit};
ghost use Rattle.aqe_lexer.specs.Content.{text_of as token_text, content_of as token_content};
ghost use Rattle.aqe_lexer.specs.Spans.{StandsIn};
ghost use Rattle.aqe_script.specs.Terminals as spec;

use crate::key::key_of;
use crate::token_text::{content_of, text_of};
use aqe_base::Memory;
use aqe_lexer::{Token, TokenKind, is_long, number_value, undoubled, unescaped};
use aqe_trees::Terminal;
use aqe_values::Text;
use sqlite_items::Items;
use std::alloc::Global;

/// A text of the characters.
pub(crate) fn copied(alloc: Global, text: &str) -> Result<Text, Memory>
    requires { length text.now ≤ text_limit }
    ensures { IfOk result (λ t. t ≡ text.now) }
{
    match Text::copy_of(alloc, text) {
        Ok(text) => Ok(text),
        Err(_) => Err(Memory),
    }
}

/// What a token that is no reserved word and no symbol stands for.
fn content_terminal(alloc: Global, source: &str, token: Token) -> Result<Terminal, Memory>
    requires stands { StandsIn source.now token }
    requires size { length source.now ≤ text_limit }
    ensures { IfOk result (λ t. t ≡ spec.content_terminal token.kind (token_text source.now token) (token_content source.now token)) }
{
    match token.kind {
        TokenKind::Word => Ok(Terminal::Name {
            text: copied(alloc, text_of(source, token))?,
            quoted: false,
        }),
        TokenKind::Quoted => {
            let text = undoubled(alloc, content_of(source, token))?;
            Ok(Terminal::Name {
                text: copied(alloc, text.as_str())?,
                quoted: true,
            })
        }
        TokenKind::Literal => {
            let text = unescaped(alloc, content_of(source, token))?;
            Ok(Terminal::Literal(copied(alloc, text.as_str())?))
        }
        TokenKind::Number => {
            let text = text_of(source, token).as_bytes();
            Ok(Terminal::Number {
                value: number_value(text),
                long: is_long(text),
            })
        }
        TokenKind::Mixed | TokenKind::Symbol => Ok(Terminal::Mixed),
    }
}

/// The terminal that the token is.
fn terminal_of(alloc: Global, source: &str, token: Token) -> Result<Terminal, Memory>
    requires stands { StandsIn source.now token }
    requires size { length source.now ≤ text_limit }
    ensures { IfOk result (λ t. t ≡ spec.terminal_of source.now token) }
{
    match key_of(source, token) {
        Some(key) => Ok(Terminal::Fixed(key)),
        None => content_terminal(alloc, source, token),
    }
}

/// The terminals that the tokens are, in order.
pub fn terminals_of(
    alloc: Global,
    source: &str,
    tokens: &[Token],
) -> Result<Items<Terminal>, Memory>
    requires stand { All (StandsIn source.now) tokens.now }
    requires size { length source.now ≤ text_limit }
    ensures { IfOk result (λ terminals. terminals ≡ spec.terminals_of source.now tokens.now) }
{
    let mut terminals = Vec::with_capacity(alloc, tokens.len())?;
    for token in tokens {
        let terminal = terminal_of(alloc, source, *token)?;
        terminals.push(terminal)?;
    }
    Ok(Items::from_vec(terminals))
}
