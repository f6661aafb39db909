//! Small steps over terminals, beside those of the reader of expressions.

ghost use Rattle.std.specs.Prelude.{◌≡◌, ◌∷◌, MatchOption, IfOk, false};
ghost use Rattle.aqe_trees.specs.declared.terminal.Terminal;
ghost use Rattle.aqe_trees.specs.Words as words;
ghost use Rattle.aqe_syntax.specs.Parts.{two_keys, dotted_star, NoNumber};

use aqe_reader::cursor::{eat, name, next};
use aqe_trees::{Key, Terminal};
use aqe_values::{Memory, Text};
use std::alloc::Global;

/// What stands behind two words or symbols, where they come first.
pub fn pair(terminals: &[Terminal], first: Key, second: Key) -> Option<&[Terminal]>
    ensures { MatchOption result
        ((us : _) → terminals.now ≡ two_keys first second us → ⊥)
        (λ rest. terminals.now ≡ two_keys first second rest.now) }
{
    let rest = eat(terminals, first)?;
    eat(rest, second)
}

/// The word that comes first and is not reserved, and what stands behind it.
pub fn word(terminals: &[Terminal]) -> Option<(&Text, &[Terminal])>
    ensures { MatchOption result
        ((text : _) (us : _) → terminals.now ≡ Terminal.Name text false ∷ us → ⊥)
        (λ x. terminals.now ≡ Terminal.Name x.0.now false ∷ x.1.now) }
{
    let (text, quoted, rest) = name(terminals)?;
    if quoted { None } else { Some((text, rest)) }
}

/// Whether the text is a word, where ASCII case does not count.
pub fn is_word(text: &Text, word: &str) -> bool
    ensures { result ≡ words.is_word word.now text.now }
{
    text.as_str().eq_ignore_ascii_case(word)
}

/// The number that comes first, whether it ends in the letter of BIGINT, and what stands behind it.
pub fn number(terminals: &[Terminal]) -> Option<(u64, bool, &[Terminal])>
    ensures { MatchOption result
        (NoNumber terminals.now)
        (λ x. terminals.now ≡ Terminal.Number x.0 x.1 ∷ x.2.now) }
{
    match next(terminals) {
        Some((Terminal::Number { value, long }, rest)) => Some((*value, *long, rest)),
        _ => None,
    }
}

/// The name that comes first, with a point and a star behind it, and what stands behind these.
pub fn name_star(terminals: &[Terminal]) -> Option<(&Text, bool, &[Terminal])>
    ensures { MatchOption result
        ((text : _) (quoted : _) (us : _) → terminals.now ≡ dotted_star text quoted us → ⊥)
        (λ x. terminals.now ≡ dotted_star x.0.now x.1 x.2.now) }
{
    let (text, quoted, rest) = name(terminals)?;
    let rest = pair(rest, Key::Dot, Key::Star)?;
    Some((text, quoted, rest))
}

/// The content of the string that comes first, and what stands behind it.
pub fn literal(terminals: &[Terminal]) -> Option<(&Text, &[Terminal])>
    ensures { MatchOption result
        ((text : _) (us : _) → terminals.now ≡ Terminal.Literal text ∷ us → ⊥)
        (λ x. terminals.now ≡ Terminal.Literal x.0.now ∷ x.1.now) }
{
    match next(terminals) {
        Some((Terminal::Literal(text), rest)) => Some((text, rest)),
        _ => None,
    }
}

/// A copy of the text.
pub fn copied(alloc: Global, text: &Text) -> Result<Text, Memory>
    ensures { IfOk result (λ t. t ≡ text.now) }
{
    Text::copy_of(alloc, text.as_str())
}
