//! Where the items behind a run may fit next.

ghost use Rattle.std.specs.Prelude.{◌≡◌, false, length, chars};
ghost use Rattle.aqe_like.specs.Patterns.{items, matches, span};
ghost use Rattle.aqe_like.specs.Laying.{PlainFront, Begins, FoundIn, Shortened, FitsLater};

use crate::pattern::{Item, first_char, first_item};

/// The next place at which the items of the pattern may fit, where they do not fit at this one; none
/// where they fit nowhere behind.
///
/// Up to the pattern's end, that is the one place with as many characters as there are items. Else
/// the plain characters in front of the pattern are searched for, in about as many steps as the
/// text passed over is long.
pub(crate) fn next_place<'a>(place: &'a str, pattern: &str) -> Option<&'a str>
    requires { matches (items (chars pattern.now)) (chars place.now) ≡ false }
    ensures { FitsLater place.now pattern.now result }
{
    match item_count(pattern) {
        Some(count) => with_characters(place, count),
        None => {
            let (_, behind) = first_char(place)?;
            found_in(behind, plain_front(pattern))
        }
    }
}

/// The number of the items, where none of them is a run.
fn item_count(pattern: &str) -> Option<usize>
    ensures { result ≡ span (items (chars pattern.now)) }
{
    let mut count = 0usize;
    let mut left = pattern;
    'items: while let Some((item, rest)) = first_item(left) {
        if let Item::Run = item {
            return None;
        }
        count += 1;
        left = rest;
    }
    Some(count)
}

/// The end of the text that has so many characters, where the text has more.
fn with_characters(text: &str, count: usize) -> Option<&str>
    ensures { Shortened text.now count result }
{
    let all = characters(text);
    if all <= count {
        return None;
    }
    let mut more = all - count;
    let mut left = text;
    'skipped: while more > 0 {
        let (_, behind) = first_char(left)?;
        left = behind;
        more -= 1;
    }
    Some(left)
}

/// The number of characters.
fn characters(text: &str) -> usize
    ensures { result ≡ length (chars text.now) }
{
    text.chars().count()
}

/// The text from the first place on at which the part stands in it.
fn found_in<'a>(text: &'a str, part: &str) -> Option<&'a str>
    ensures { FoundIn text.now part.now result }
{
    let start = text.find(part)?;
    Some(&text[start..])
}

/// The characters in front of the pattern that stand for themselves.
fn plain_front(pattern: &str) -> &str
    ensures { Begins pattern.now result.now }
{
    let rest = behind_plain(pattern);
    &pattern[..pattern.len() - rest.len()]
}

/// The pattern from its first `%`, `_` or `\` on.
fn behind_plain(pattern: &str) -> &str
    ensures { PlainFront pattern.now result.now }
{
    let mut left = pattern;
    'plain: while let Some((c, rest)) = first_char(left) {
        if c == '%' || c == '_' || c == '\\' {
            return left;
        }
        left = rest;
    }
    left
}
