//! Reserved words and symbols.

ghost use Rattle.std.specs.Prelude.{◌≡◌};
ghost use Rattle.aqe_lexer.specs.Spans.{StandsIn};
ghost use Rattle.aqe_script.specs.Terminals as spec;

use crate::token_text::text_of;
use aqe_lexer::{Token, TokenKind};
use aqe_trees::{Key, symbol_key, word_key};

/// The reserved word or symbol that the token is.
pub fn key_of(source: &str, token: Token) -> Option<Key>
    requires { StandsIn source.now token }
    ensures { result ≡ spec.key_of source.now token }
{
    match token.kind {
        TokenKind::Word => word_key(text_of(source, token)),
        TokenKind::Symbol => symbol_key(text_of(source, token)),
        _ => None,
    }
}
