//! The script of a source.

ghost use Rattle.std.specs.Prelude.{◌≡◌, ◌≤◌, ◌∷◌, [], ◌↔◌, length, Any, IsTrue, IsUtf8, MatchOption, MatchResult};
ghost use Rattle.aqe_lexer.specs.TokenList.{IsTokenList};
ghost use Rattle.aqe_syntax.specs.Causes.{IsTooNested, IsTaken, IsCause};

use crate::SyntaxFault;
use crate::scripts::read_script;
use aqe_lexer::Tokens;
use aqe_script::{is_too_nested, is_too_open};
use aqe_trees::{Script, Stmt};
use std::alloc::Global;
use std::str::from_utf8;

/// The source as text.
fn as_text(source: &[u8]) -> &str
    requires { IsUtf8 source.now }
    ensures { result.now ≡ source.now }
{
    match from_utf8(source) {
        Ok(text) => text,
        Err(_) => unreachable!(),
    }
}

/// The first statement, and those behind it.
fn next(script: &[Stmt]) -> Option<(&Stmt, &[Stmt])>
    ensures { MatchOption result (script.now ≡ []) (λ x. script.now ≡ x.0.now ∷ x.1.now) }
{
    match script {
        [] => None,
        [first, rest @ ..] => Some((first, rest)),
    }
}

/// Whether some statement is nested too deep.
fn has_too_nested(script: &[Stmt]) -> bool
    ensures { IsTrue result ↔ Any IsTooNested script.now }
{
    let mut left = script;
    'more: while let Some((one, more)) = next(left) {
        if is_too_nested(one) {
            return true;
        }
        left = more;
    }
    false
}

/// The script that the tokens of the source are.
///
/// No reader follows parentheses and CASEs that are open too deep: that is tested first, over all tokens.
pub fn parse(alloc: Global, source: &[u8], tokens: &Tokens) -> Result<Script, SyntaxFault>
    requires tokens { IsTokenList source.now tokens.now }
    requires size { length source.now ≤ 67108864 }
    ensures { MatchResult result
        (λ script. IsTaken source.now tokens.now script)
        (λ e. IsCause source.now tokens.now e) }
{
    let text = as_text(source);
    let list = tokens.slice();
    if is_too_open(text, list) {
        return Err(SyntaxFault::TooDeep);
    }
    let script = read_script(alloc, text, list)?;
    if has_too_nested(script.slice()) {
        return Err(SyntaxFault::TooDeep);
    }
    Ok(script)
}
