//! The lexer: a source as its tokens.

ghost use Rattle.std.specs.Prelude.{◌≡◌, ◌≤◌, length, take, IfOk, IfErr, IsUtf8};
ghost use Rattle.std.specs.Str.Lossy.{utf8_valid_len};
ghost use Rattle.aqe_lexer.specs.TokenList.{IsTokenList, IsCause, Reads};

use crate::fault::{is_open, told};
use crate::piece::piece_at;
use crate::skip::tail;
use crate::{LexFault, Piece, Reading, Token, Tokens};
use aqe_base::Memory;
use std::alloc::Global;
use std::str::from_utf8;

/// What the text is read as, piece by piece, up to its first fault.
#[tactic(auto, using(crate::proofs::Progress::reads))]
fn read(alloc: Global, text: &[u8]) -> Result<Reading, Memory>
    requires { length text.now ≤ 67108864 }
    ensures { IfOk result (λ r. Reads text.now r) }
{
    let mut tokens = Tokens::new(alloc);
    let mut rest = text;
    let mut at = 0;
    'pieces: while !rest.is_empty() {
        match piece_at(rest) {
            Piece::Gap { len } => {
                rest = tail(rest, len);
                at += len;
            }
            Piece::Cut { kind, len } => {
                tokens.push(Token {
                    kind,
                    start: at as u64,
                    end: (at + len) as u64,
                })?;
                rest = tail(rest, len);
                at += len;
            }
            Piece::Bad { fault, far } => {
                return Ok(Reading::Broken {
                    fault,
                    at: at + far,
                });
            }
        }
    }
    Ok(Reading::Whole(tokens))
}

/// The tokens of a source of at most 64 MiB.
///
/// Blanks and comments stand between tokens and are none. A comment is `--` to the line's end, or
/// `/*` to the `*/` that matches it, with comments in it. Bytes outside ASCII are UTF-8, and stand
/// in strings, quoted names and comments alone. An error tells the first place where there is no
/// token; of something that has no end, that is where it begins, unless it holds a bad byte.
pub fn tokens(alloc: Global, source: &[u8]) -> Result<Tokens, LexFault>
    requires { length source.now ≤ 67108864 }
    ensures tokens { IfOk result (λ tokens. IsTokenList source.now tokens) }
    ensures cause { IfErr result (λ fault. IsCause source.now fault) }
{
    match from_utf8(source) {
        Ok(_) => whole(alloc, source),
        Err(error) => Err(first_fault(alloc, source, error.valid_up_to())),
    }
}

/// The tokens of a source that is UTF-8.
fn whole(alloc: Global, source: &[u8]) -> Result<Tokens, LexFault>
    requires bound { length source.now ≤ 67108864 }
    requires text { IsUtf8 source.now }
    ensures tokens { IfOk result (λ tokens. IsTokenList source.now tokens) }
    ensures cause { IfErr result (λ fault. IsCause source.now fault) }
{
    match read(alloc, source) {
        Ok(Reading::Whole(tokens)) => Ok(tokens),
        Ok(Reading::Broken { fault, at }) => Err(told(fault, at)),
        Err(Memory) => Err(LexFault::Memory),
    }
}

/// The fault of a source that is no UTF-8 from the byte `valid` on.
#[tactic(auto, using(crate::proofs::FaultLemmas::causes))]
fn first_fault(alloc: Global, source: &[u8], valid: usize) -> LexFault
    requires bound { length source.now ≤ 67108864 }
    requires broken { ¬ (IsUtf8 source.now) }
    requires valid { valid ≡ utf8_valid_len source.now }
    ensures { IsCause source.now result }
{
    match read(alloc, &source[..valid]) {
        Ok(Reading::Whole(_)) => LexFault::BadByte { at: valid as u64 },
        Ok(Reading::Broken { fault, at }) => {
            if is_open(fault) {
                LexFault::BadByte { at: valid as u64 }
            } else {
                told(fault, at)
            }
        }
        Err(Memory) => LexFault::Memory,
    }
}
