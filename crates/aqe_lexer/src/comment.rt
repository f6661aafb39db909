//! Comments that have an end of their own, and may nest.

ghost use Rattle.std.specs.Prelude.{◌≡◌, ◌<◌, ◌≤◌, ◌+◌, ◌^◌, length, ℕ, None, Some, MatchOption, IfSome};
ghost use Rattle.aqe_lexer.specs.Parts.{EndsIn, comment_step, comment_end};

use crate::skip::behind;
use crate::{Fault, Piece};

/// How many comments are open behind the first part of the bytes, and what is left there.
fn comment_step(depth: usize, bytes: &[u8]) -> Option<(usize, &[u8])>
    requires open { 0 < depth }
    requires room { depth + length bytes.now < 2 ^ 63 }
    ensures step { MatchOption result (comment_step (depth, bytes.now) ≡ None) (λ next.
        comment_step (depth, bytes.now) ≡ Some (next.0, next.1.now)) }
    ensures less { IfSome result (λ next. (0 < next.0) × (length next.1.now < length bytes.now)
        × (next.0 + length next.1.now ≤ depth + length bytes.now)) }
{
    match bytes {
        [] => None,
        [b'*', b'/', rest @ ..] => {
            if depth == 1 {
                None
            } else {
                Some((depth - 1, rest))
            }
        }
        [b'/', b'*', rest @ ..] => Some((depth + 1, rest)),
        [_, rest @ ..] => Some((depth, rest)),
    }
}

/// What begins with `/*`, by the bytes behind it.
#[tactic(auto, using(crate::proofs::PartLemmas::going))]
pub(crate) fn comment(bytes: &[u8]) -> Piece
    requires { length bytes.now < 2 ^ 62 }
    ensures { EndsIn comment_step (1, bytes.now) (comment_end bytes.now) result }
{
    let mut depth = 1;
    let mut rest = bytes;
    'parts: while let Some((more, left)) = comment_step(depth, rest) {
        depth = more;
        rest = left;
    }
    if rest.is_empty() {
        Piece::Bad {
            fault: Fault::OpenComment,
            far: 0,
        }
    } else {
        Piece::Gap {
            len: bytes.len() - rest.len() + 4,
        }
    }
}
