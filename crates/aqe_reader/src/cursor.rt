//! Steps over terminals.

ghost use Rattle.std.specs.Prelude.{◌≡◌, ◌∷◌, [], MatchOption, MatchResult};
ghost use Rattle.aqe_trees.specs.declared.terminal.Terminal;
ghost use Rattle.aqe_reader.specs.Reading.{IsRefusal, NoName};

use crate::ReadFault;
use aqe_trees::{Key, Terminal};
use aqe_values::Text;

/// The first terminal, and what stands behind it.
pub fn next(terminals: &[Terminal]) -> Option<(&Terminal, &[Terminal])>
    ensures { MatchOption result (terminals.now ≡ []) (λ x. terminals.now ≡ x.0.now ∷ x.1.now) }
{
    match terminals {
        [] => None,
        [first, rest @ ..] => Some((first, rest)),
    }
}

/// What stands behind the wanted word or symbol, where it comes first.
pub fn eat(terminals: &[Terminal], wanted: Key) -> Option<&[Terminal]>
    ensures { MatchOption result
        ((us : _) → terminals.now ≡ Terminal.Fixed wanted ∷ us → ⊥)
        (λ rest. terminals.now ≡ Terminal.Fixed wanted ∷ rest.now) }
{
    match next(terminals) {
        Some((Terminal::Fixed(key), rest)) if *key == wanted => Some(rest),
        _ => None,
    }
}

/// What stands behind the wanted word or symbol, with which alone a sentence goes on here.
pub fn expect(terminals: &[Terminal], wanted: Key) -> Result<&[Terminal], ReadFault>
    ensures { MatchResult result
        (λ rest. terminals.now ≡ Terminal.Fixed wanted ∷ rest.now)
        (λ e. IsRefusal e → (us : _) → terminals.now ≡ Terminal.Fixed wanted ∷ us → ⊥) }
{
    match eat(terminals, wanted) {
        Some(rest) => Ok(rest),
        None => Err(ReadFault::at(terminals)),
    }
}

/// The name that comes first, whether it stood between backquotes, and what stands behind it.
pub fn name(terminals: &[Terminal]) -> Option<(&Text, bool, &[Terminal])>
    ensures { MatchOption result
        (NoName terminals.now)
        (λ x. terminals.now ≡ Terminal.Name x.0.now x.1 ∷ x.2.now) }
{
    match next(terminals) {
        Some((Terminal::Name { text, quoted }, rest)) => Some((text, *quoted, rest)),
        _ => None,
    }
}
