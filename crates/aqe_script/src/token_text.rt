//! What tokens say.

ghost use Rattle.std.specs.Prelude.{◌≡◌, ◌≤◌, length, IsUtf8};
ghost use Rattle.aqe_lexer.specs.Content.{text_of, content_of};
ghost use Rattle.aqe_lexer.specs.Spans.{StandsIn};
ghost use Rattle.aqe_script.specs.Terminals as spec;
ghost use Rattle.aqe_script.specs.Texts.{IsQuotedToken};

use aqe_lexer::Token;

/// The text of the token.
pub(crate) fn text_of<'a>(source: &'a str, token: Token) -> &'a str
    requires { StandsIn source.now token }
    ensures { result.now ≡ text_of source.now token }
{
    &source[token.start as usize..token.end as usize]
}

/// What stands between the quotes of the token.
pub(crate) fn content_of<'a>(source: &'a str, token: Token) -> &'a [u8]
    requires stands { StandsIn source.now token }
    requires quoted { IsQuotedToken token.kind }
    ensures value { result.now ≡ content_of source.now token }
    ensures utf8 { IsUtf8 result.now }
{
    &source.as_bytes()[token.start as usize + 1..token.end as usize - 1]
}
