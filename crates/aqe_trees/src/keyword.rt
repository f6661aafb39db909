//! The table of reserved words and symbols: the text of each key, and the key of a text.

ghost use Rattle.std.specs.Prelude.{◌≡◌};
ghost use Rattle.std.specs.List.{find};
ghost use Rattle.aqe_trees.specs.Keywords as spec;

use crate::Key;

/// A reserved word in capitals, or a symbol.
pub fn key_text(key: Key) -> &'static str
    ensures { result.now ≡ spec.key_text key }
{
    match key {
        Key::All => "ALL",
        Key::And => "AND",
        Key::Anti => "ANTI",
        Key::As => "AS",
        Key::Asc => "ASC",
        Key::Between => "BETWEEN",
        Key::By => "BY",
        Key::Case => "CASE",
        Key::Cast => "CAST",
        Key::Create => "CREATE",
        Key::Cross => "CROSS",
        Key::Desc => "DESC",
        Key::Distinct => "DISTINCT",
        Key::Div => "DIV",
        Key::Else => "ELSE",
        Key::End => "END",
        Key::False => "FALSE",
        Key::From => "FROM",
        Key::Full => "FULL",
        Key::Group => "GROUP",
        Key::Having => "HAVING",
        Key::In => "IN",
        Key::Inner => "INNER",
        Key::Is => "IS",
        Key::Join => "JOIN",
        Key::Left => "LEFT",
        Key::Like => "LIKE",
        Key::Limit => "LIMIT",
        Key::Not => "NOT",
        Key::Null => "NULL",
        Key::Nulls => "NULLS",
        Key::Offset => "OFFSET",
        Key::On => "ON",
        Key::Or => "OR",
        Key::Order => "ORDER",
        Key::Outer => "OUTER",
        Key::Right => "RIGHT",
        Key::Select => "SELECT",
        Key::Semi => "SEMI",
        Key::Set => "SET",
        Key::Then => "THEN",
        Key::True => "TRUE",
        Key::Union => "UNION",
        Key::Using => "USING",
        Key::When => "WHEN",
        Key::Where => "WHERE",
        Key::Open => "(",
        Key::Close => ")",
        Key::Comma => ",",
        Key::Dot => ".",
        Key::Semicolon => ";",
        Key::Star => "*",
        Key::Plus => "+",
        Key::Minus => "-",
        Key::Percent => "%",
        Key::Equal => "=",
        Key::DoubleEqual => "==",
        Key::Same => "<=>",
        Key::NotEqual => "<>",
        Key::Less => "<",
        Key::AtMost => "<=",
        Key::Greater => ">",
        Key::AtLeast => ">=",
    }
}

/// Whether the text spells the key, in any case of ASCII letters.
fn spells(text: &str, key: Key) -> bool
    ensures { result ≡ spec.spells text.now key }
{
    text.eq_ignore_ascii_case(key_text(key))
}

/// The first of the keys that the text spells, in any case of ASCII letters.
fn spelled_among(text: &str, keys: &[Key]) -> Option<Key>
    ensures { result ≡ find (λ key. spec.spells text.now key) keys.now }
{
    'keys: for key in keys {
        if spells(text, *key) {
            return Some(*key);
        }
    }
    None
}

/// The reserved word that the text is, in any case of ASCII letters: such a word names nothing unless it is quoted.
///
/// Only the words with the text's first letter are compared with it.
pub fn word_key(text: &str) -> Option<Key>
    ensures { result ≡ spec.word_key text.now }
{
    let [first, ..] = text.as_bytes() else {
        return None;
    };
    match first.to_ascii_lowercase() {
        b'a' => spelled_among(text, &[Key::All, Key::And, Key::Anti, Key::As, Key::Asc]),
        b'b' => spelled_among(text, &[Key::Between, Key::By]),
        b'c' => spelled_among(text, &[Key::Case, Key::Cast, Key::Create, Key::Cross]),
        b'd' => spelled_among(text, &[Key::Desc, Key::Distinct, Key::Div]),
        b'e' => spelled_among(text, &[Key::Else, Key::End]),
        b'f' => spelled_among(text, &[Key::False, Key::From, Key::Full]),
        b'g' => spelled_among(text, &[Key::Group]),
        b'h' => spelled_among(text, &[Key::Having]),
        b'i' => spelled_among(text, &[Key::In, Key::Inner, Key::Is]),
        b'j' => spelled_among(text, &[Key::Join]),
        b'l' => spelled_among(text, &[Key::Left, Key::Like, Key::Limit]),
        b'n' => spelled_among(text, &[Key::Not, Key::Null, Key::Nulls]),
        b'o' => spelled_among(
            text,
            &[Key::Offset, Key::On, Key::Or, Key::Order, Key::Outer],
        ),
        b'r' => spelled_among(text, &[Key::Right]),
        b's' => spelled_among(text, &[Key::Select, Key::Semi, Key::Set]),
        b't' => spelled_among(text, &[Key::Then, Key::True]),
        b'u' => spelled_among(text, &[Key::Union, Key::Using]),
        b'w' => spelled_among(text, &[Key::When, Key::Where]),
        _ => None,
    }
}

/// The symbol that the text is.
pub fn symbol_key(text: &str) -> Option<Key>
    ensures { result ≡ spec.symbol_key text.now }
{
    if text.eq_ignore_ascii_case("!=") {
        return Some(Key::NotEqual);
    }
    spelled_among(
        text,
        &[
            Key::Open,
            Key::Close,
            Key::Comma,
            Key::Dot,
            Key::Semicolon,
            Key::Star,
            Key::Plus,
            Key::Minus,
            Key::Percent,
            Key::Equal,
            Key::DoubleEqual,
            Key::Same,
            Key::NotEqual,
            Key::Less,
            Key::AtMost,
            Key::Greater,
            Key::AtLeast,
        ],
    )
}
