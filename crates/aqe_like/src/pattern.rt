//! LIKE.

ghost use Rattle.std.specs.Prelude.{◌≡◌, ◌<◌, [], ◌∷◌, length, MatchOption, chars, ⊤};
ghost use Rattle.aqe_like.specs.Patterns.{items, allows, like};
ghost use Rattle.aqe_like.specs.Laying.{Laid};

use crate::search::next_place;
use aqe_values::Text;

/// An item of a pattern.
#[derive(Clone, Copy, Drop)]
pub(crate) enum Item {
    /// `%`, a run of any characters.
    Run,
    /// `_`, any one character.
    One,
    /// A character that stands for itself.
    Exactly(char),
}

/// What comes of laying the items in front of the first `%` over the front of a text.
#[derive(Drop)]
pub(crate) enum Fit<'a> {
    /// There is no `%`, and the items are the whole text.
    Whole,
    /// An item does not allow what stands at its place, or text is left over.
    Apart,
    /// The items fit: the text behind them, and the rest of the pattern behind the `%`.
    UpToRun { behind: &'a str, rest: &'a str },
}

/// `text LIKE pattern`: `%` is any run of characters, `_` one character, and `\` makes the next
/// character stand for itself.
///
/// It takes no memory. Plain characters between two `%` are searched for in about as many steps as
/// the text passed over is long; between two `%` with `_` or `\` the steps may be as many as that
/// length times the number of the characters between them.
pub fn likes(text: &Text, pattern: &Text) -> bool
    ensures { result ≡ like text.now pattern.now }
{
    let (mut place, mut left) = match laid(text.as_str(), pattern.as_str()) {
        Fit::Whole => return true,
        Fit::Apart => return false,
        Fit::UpToRun { behind, rest } => (behind, rest),
    };
    // What is left of the pattern stands behind a `%`. The first place at which the items up to
    // the next `%` fit is as good as any later one.
    'places: loop {
        match laid(place, left) {
            Fit::Whole => return true,
            Fit::UpToRun { behind, rest } => {
                place = behind;
                left = rest;
            }
            Fit::Apart => match next_place(place, left) {
                Some(later) => place = later,
                None => return false,
            },
        }
    }
}

/// Lays the items in front of the pattern's first `%` over the front of the text.
fn laid<'a>(text: &'a str, pattern: &'a str) -> Fit<'a>
    ensures { Laid text.now pattern.now result }
{
    let mut place = text;
    let mut left = pattern;
    'items: while let Some((item, rest)) = first_item(left) {
        left = rest;
        match item {
            Item::Run => {
                return Fit::UpToRun {
                    behind: place,
                    rest: left,
                };
            }
            Item::One | Item::Exactly(_) => match first_char(place) {
                Some((c, behind)) if is_allowed(item, c) => place = behind,
                _ => return Fit::Apart,
            },
        }
    }
    match first_char(place) {
        None => Fit::Whole,
        Some(_) => Fit::Apart,
    }
}

/// Whether the item allows the one character.
fn is_allowed(item: Item, c: char) -> bool
    ensures { result ≡ allows item (c ∷ []) }
{
    match item {
        Item::Run | Item::One => true,
        Item::Exactly(d) => d == c,
    }
}

/// The first item of a pattern, and the pattern behind it.
pub(crate) fn first_item(pattern: &str) -> Option<(Item, &str)>
    ensures item { MatchOption result (items (chars pattern.now) ≡ []) (λ p. items (chars pattern.now) ≡ p.0 ∷ items (chars p.1.now)) }
    ensures shorter { MatchOption result ⊤ (λ p. length p.1.now < length pattern.now) }
{
    let (c, rest) = first_char(pattern)?;
    match c {
        '%' => Some((Item::Run, rest)),
        '_' => Some((Item::One, rest)),
        '\\' => match first_char(rest) {
            Some((c, rest)) => Some((Item::Exactly(c), rest)),
            None => Some((Item::Exactly('\\'), rest)),
        },
        c => Some((Item::Exactly(c), rest)),
    }
}

/// The first character of a text, and the text behind it.
pub(crate) fn first_char(text: &str) -> Option<(char, &str)>
    ensures char { MatchOption result (chars text.now ≡ []) (λ p. chars text.now ≡ p.0 ∷ chars p.1.now) }
    ensures shorter { MatchOption result ⊤ (λ p. length p.1.now < length text.now) }
{
    let mut chars = text.chars();
    let c = chars.next()?;
    Some((c, chars.as_str()))
}
