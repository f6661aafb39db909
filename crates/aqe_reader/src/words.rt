//! Operators, types and other words at the front of terminals.

ghost use Rattle.std.specs.Prelude.{◌≡◌, ◌∷◌, true, None, Some, MatchOption};
ghost use Rattle.aqe_trees.specs.declared.terminal.Key.TheVariants as k;
ghost use Rattle.aqe_trees.specs.declared.terminal.Terminal.TheVariants.{Fixed};
ghost use Rattle.aqe_trees.specs.Words.{compare_of, sum_of, product_of, truth_of, sign_at, type_of, type_named, is_word, count_word};
ghost use Rattle.aqe_reader.specs.Steps.{NoStar};

use crate::cursor::{eat, next};
use aqe_trees::{CompareOp, Key, ProductOp, Sign, Terminal, Truth};
use aqe_values::{SqlType, Text};

/// The comparison that a terminal spells.
fn compare_of(terminal: &Terminal) -> Option<CompareOp>
    ensures { result ≡ compare_of terminal.now }
{
    match terminal {
        Terminal::Fixed(Key::Equal | Key::DoubleEqual) => Some(CompareOp::Equal),
        Terminal::Fixed(Key::Same) => Some(CompareOp::Same),
        Terminal::Fixed(Key::NotEqual) => Some(CompareOp::NotEqual),
        Terminal::Fixed(Key::Less) => Some(CompareOp::Less),
        Terminal::Fixed(Key::AtMost) => Some(CompareOp::AtMost),
        Terminal::Fixed(Key::Greater) => Some(CompareOp::Greater),
        Terminal::Fixed(Key::AtLeast) => Some(CompareOp::AtLeast),
        _ => None,
    }
}

/// The same of what comes first, and what stands behind it.
pub(crate) fn compare_at(terminals: &[Terminal]) -> Option<(CompareOp, &[Terminal])>
    ensures { MatchOption result
        ((t : _) (us : _) → terminals.now ≡ t ∷ us → compare_of t ≡ None)
        (λ x. (t : _) × (terminals.now ≡ t ∷ x.1.now) × (compare_of t ≡ Some x.0)) }
{
    let (first, rest) = next(terminals)?;
    Some((compare_of(first)?, rest))
}

/// Plus or minus.
fn sum_of(terminal: &Terminal) -> Option<Sign>
    ensures { result ≡ sum_of terminal.now }
{
    match terminal {
        Terminal::Fixed(Key::Plus) => Some(Sign::Plus),
        Terminal::Fixed(Key::Minus) => Some(Sign::Minus),
        _ => None,
    }
}

/// The same of what comes first, and what stands behind it.
pub(crate) fn sum_at(terminals: &[Terminal]) -> Option<(Sign, &[Terminal])>
    ensures { MatchOption result
        ((t : _) (us : _) → terminals.now ≡ t ∷ us → sum_of t ≡ None)
        (λ x. (t : _) × (terminals.now ≡ t ∷ x.1.now) × (sum_of t ≡ Some x.0)) }
{
    let (first, rest) = next(terminals)?;
    Some((sum_of(first)?, rest))
}

/// `*`, `%` or DIV.
fn product_of(terminal: &Terminal) -> Option<ProductOp>
    ensures { result ≡ product_of terminal.now }
{
    match terminal {
        Terminal::Fixed(Key::Star) => Some(ProductOp::Times),
        Terminal::Fixed(Key::Percent) => Some(ProductOp::Remainder),
        Terminal::Fixed(Key::Div) => Some(ProductOp::Divide),
        _ => None,
    }
}

/// The same of what comes first, and what stands behind it.
pub(crate) fn product_at(terminals: &[Terminal]) -> Option<(ProductOp, &[Terminal])>
    ensures { MatchOption result
        ((t : _) (us : _) → terminals.now ≡ t ∷ us → product_of t ≡ None)
        (λ x. (t : _) × (terminals.now ≡ t ∷ x.1.now) × (product_of t ≡ Some x.0)) }
{
    let (first, rest) = next(terminals)?;
    Some((product_of(first)?, rest))
}

/// What IS may ask for.
fn truth_of(terminal: &Terminal) -> Option<Truth>
    ensures { result ≡ truth_of terminal.now }
{
    match terminal {
        Terminal::Fixed(Key::Null) => Some(Truth::Null),
        Terminal::Fixed(Key::True) => Some(Truth::True),
        Terminal::Fixed(Key::False) => Some(Truth::False),
        _ => None,
    }
}

/// The same of what comes first, and what stands behind it.
pub(crate) fn truth_at(terminals: &[Terminal]) -> Option<(Truth, &[Terminal])>
    ensures { MatchOption result
        ((t : _) (us : _) → terminals.now ≡ t ∷ us → truth_of t ≡ None)
        (λ x. (t : _) × (terminals.now ≡ t ∷ x.1.now) × (truth_of t ≡ Some x.0)) }
{
    let (first, rest) = next(terminals)?;
    Some((truth_of(first)?, rest))
}

/// The sign that comes first, where it is not the `-` of a number, and what stands behind it.
pub(crate) fn sign_at(terminals: &[Terminal]) -> Option<(Sign, &[Terminal])>
    ensures { MatchOption result
        (sign_at terminals.now ≡ None)
        (λ x. (t : _) × (terminals.now ≡ t ∷ x.1.now) × (sign_at terminals.now ≡ Some x.0)) }
{
    match terminals {
        [Terminal::Fixed(Key::Plus), rest @ ..] => Some((Sign::Plus, rest)),
        [Terminal::Fixed(Key::Minus), Terminal::Number { .. }, ..] => None,
        [Terminal::Fixed(Key::Minus), rest @ ..] => Some((Sign::Minus, rest)),
        _ => None,
    }
}

/// Whether the text is the word, where ASCII case does not count.
fn is_word(word: &str, text: &str) -> bool
    ensures { result ≡ is_word word.now text.now }
{
    text.eq_ignore_ascii_case(word)
}

/// The type that a word names.
fn type_named(text: &str) -> Option<SqlType>
    ensures { result ≡ type_named text.now }
{
    if is_word("int", text) || is_word("integer", text) {
        Some(SqlType::Int)
    } else if is_word("bigint", text) || is_word("long", text) {
        Some(SqlType::BigInt)
    } else if is_word("string", text) {
        Some(SqlType::Text)
    } else if is_word("boolean", text) {
        Some(SqlType::Boolean)
    } else {
        None
    }
}

/// The type that a terminal names; between backquotes it names none.
fn type_of(terminal: &Terminal) -> Option<SqlType>
    ensures { result ≡ type_of terminal.now }
{
    match terminal {
        Terminal::Name {
            text,
            quoted: false,
        } => type_named(text.as_str()),
        _ => None,
    }
}

/// The same of what comes first, and what stands behind it.
pub(crate) fn type_at(terminals: &[Terminal]) -> Option<(SqlType, &[Terminal])>
    ensures { MatchOption result
        ((t : _) (us : _) → terminals.now ≡ t ∷ us → type_of t ≡ None)
        (λ x. (t : _) × (terminals.now ≡ t ∷ x.1.now) × (type_of t ≡ Some x.0)) }
{
    let (first, rest) = next(terminals)?;
    Some((type_of(first)?, rest))
}

/// What stands behind `*`, where the function is `count`.
pub(crate) fn star_at<'a>(name: &Text, terminals: &'a [Terminal]) -> Option<&'a [Terminal]>
    ensures { MatchOption result
        (NoStar name.now terminals.now)
        (λ rest. (is_word count_word name.now ≡ true) × (terminals.now ≡ Fixed k.Star ∷ rest.now)) }
{
    if !is_word("count", name.as_str()) {
        return None;
    }
    eat(terminals, Key::Star)
}
