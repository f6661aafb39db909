//! Whole scripts.

ghost use Rattle.std.specs.Prelude.{◌≡◌, ◌≤◌, length, All, Any, IfOk, MatchResult};
ghost use Rattle.aqe_values.specs.Bounds.{text_limit};
ghost use Rattle.aqe_lexer.specs.Spans.{StandsIn, InOrder};
ghost use Rattle.aqe_script.specs.Statements.{IsScript};
ghost use Rattle.aqe_syntax.specs.Causes.{IsTokenPlace, IsPlaced, IsNoScript};

use crate::SyntaxFault;
use crate::statements::add;
use aqe_lexer::Token;
use aqe_reader::ReadFault;
use aqe_script::cut;
use aqe_trees::Script;
use std::alloc::Global;

/// Where the token begins that stands at the index, or the source's length where none does.
fn place_of(source: &str, tokens: &[Token], index: usize) -> u64
    requires { All (StandsIn source.now) tokens.now }
    ensures { IsTokenPlace source.now tokens.now result }
{
    match tokens.get(index) {
        Some(token) => token.start,
        None => source.len() as u64,
    }
}

/// The fault of a part of the tokens, told by the place of the token with which no sentence goes on.
///
/// `behind` tokens stand behind the part.
fn placed(source: &str, tokens: &[Token], behind: usize, fault: ReadFault) -> SyntaxFault
    requires { All (StandsIn source.now) tokens.now }
    ensures { IsPlaced fault source.now tokens.now result }
{
    let ReadFault::Refused { left } = fault else {
        return SyntaxFault::Memory;
    };
    let index = tokens.len().saturating_sub(left.saturating_add(behind));
    SyntaxFault::NotASentence {
        at: place_of(source, tokens, index),
    }
}

/// The statements that the tokens are, whatever their depth.
pub fn read_script(alloc: Global, source: &str, tokens: &[Token]) -> Result<Script, SyntaxFault>
    requires stand { All (StandsIn source.now) tokens.now }
    requires order { InOrder 0 tokens.now }
    requires size { length source.now ≤ text_limit }
    ensures { MatchResult result
        (λ script. IsScript source.now tokens.now script)
        (λ e. IsNoScript source.now tokens.now e) }
{
    let mut script = Script::new(alloc);
    let mut rest = tokens;
    'parts: loop {
        let (part, more) = cut(source, rest);
        if let Err(fault) = add(alloc, source, part, &mut script) {
            let behind = rest.len().saturating_sub(part.len());
            return Err(placed(source, tokens, behind, fault));
        }
        match more {
            Some(more) => rest = more,
            None => return Ok(script),
        }
    }
}
