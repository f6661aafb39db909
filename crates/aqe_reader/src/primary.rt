//! Operands: constants, names, calls, and what stands in parentheses.

ghost use Rattle.std.specs.Prelude.{◌≡◌, ◌∷◌, ◌<◌, ◌≤◌, length, true, IfOk, MatchResult};
ghost use Rattle.aqe_trees.specs.declared.terminal.Key.TheVariants as k;
ghost use Rattle.aqe_trees.specs.Expressions.{IsOr, IsPrimary};
ghost use Rattle.aqe_trees.specs.Words.{is_word, count_word};
ghost use Rattle.aqe_reader.specs.Reading.{Read, Part, Refuses, Never, IsRefusal};
ghost use Rattle.aqe_reader.specs.Nesting.{Nests};
ghost use Rattle.aqe_reader.specs.Steps.{IsAsType, Keyed, Numbered, Named, Dotted, Called, Counted};

use crate::ReadFault;
use crate::case::case;
use crate::cursor::{eat, expect, name, next};
use crate::list::list;
use crate::nest::{Nest, inner};
use crate::pieces::beside;
use crate::words::{star_at, type_at};
use aqe_trees::{Key, OrTree, PrimaryTree, Terminal};
use aqe_values::{Memory, SqlType, Text};
use sqlite_items::Boxed;
use std::alloc::Global;

/// A copy of the text.
fn copied(alloc: Global, text: &Text) -> Result<Text, Memory>
    ensures { IfOk result (λ t. t ≡ text.now) }
{
    Text::copy_of(alloc, text.as_str())
}

/// The same, with the fault of a reader.
fn own(alloc: Global, text: &Text) -> Result<Text, ReadFault>
    ensures { MatchResult result (λ t. t ≡ text.now) (λ e. IsRefusal e → ⊥) }
{
    Ok(copied(alloc, text)?)
}

/// An operand without an operator outside of parentheses.
pub(crate) fn primary<'a, F>(
    nest: &Nest<F>,
    terminals: &'a [Terminal],
) -> Result<(PrimaryTree, &'a [Terminal]), ReadFault>
where
    F: Fn(&'a [Terminal]) -> Result<(Boxed<OrTree>, &'a [Terminal]), ReadFault>,
    requires nests { Nests F.Fn nest.now.read nest.now.room }
    requires room { length terminals.now ≤ nest.now.room }
    ensures { MatchResult result
        (λ x. Read IsPrimary 20 terminals.now x.0 x.1.now)
        (λ e. IsRefusal e → Refuses IsPrimary 20 terminals.now) }
{
    let Some((first, rest)) = next(terminals) else {
        return Err(ReadFault::at(terminals));
    };
    match first {
        Terminal::Fixed(key) => keyed(nest, *key, rest),
        Terminal::Name { text, quoted } => named(nest, text, *quoted, rest),
        Terminal::Literal(text) => Ok((PrimaryTree::Literal(copied(nest.alloc, text)?), rest)),
        Terminal::Number { value, long } => number(*value, *long, rest),
        Terminal::Mixed => Err(ReadFault::at(terminals)),
    }
}

/// A number that no `-` stands directly before.
fn number(
    value: u64,
    long: bool,
    terminals: &[Terminal],
) -> Result<(PrimaryTree, &[Terminal]), ReadFault>
    ensures { MatchResult result
        (λ x. Part (Numbered value long) 20 terminals.now x.0 x.1.now)
        (λ e. IsRefusal e → Refuses (Numbered value long) 20 terminals.now) }
{
    if value > 9223372036854775807 {
        return Err(ReadFault::before(terminals));
    }
    let tree = PrimaryTree::Number {
        negative: false,
        value,
        long,
    };
    Ok((tree, terminals))
}

/// What begins with a word or symbol.
fn keyed<'a, F>(
    nest: &Nest<F>,
    key: Key,
    terminals: &'a [Terminal],
) -> Result<(PrimaryTree, &'a [Terminal]), ReadFault>
where
    F: Fn(&'a [Terminal]) -> Result<(Boxed<OrTree>, &'a [Terminal]), ReadFault>,
    requires nests { Nests F.Fn nest.now.read nest.now.room }
    requires room { length terminals.now < nest.now.room }
    ensures { MatchResult result
        (λ x. Part (Keyed key) 20 terminals.now x.0 x.1.now)
        (λ e. IsRefusal e → Refuses (Keyed key) 20 terminals.now) }
{
    match key {
        Key::True => Ok((PrimaryTree::Boolean(true), terminals)),
        Key::False => Ok((PrimaryTree::Boolean(false), terminals)),
        Key::Null => Ok((PrimaryTree::Null, terminals)),
        Key::Minus => negative(terminals),
        Key::Open => paren(nest, terminals),
        Key::Cast => cast(nest, terminals),
        Key::Case => case(nest, terminals),
        _ => Err(ReadFault::before(terminals)),
    }
}

/// The number to which a `-` belongs.
fn negative(terminals: &[Terminal]) -> Result<(PrimaryTree, &[Terminal]), ReadFault>
    ensures { MatchResult result
        (λ x. Part (Keyed k.Minus) 20 terminals.now x.0 x.1.now)
        (λ e. IsRefusal e → Refuses (Keyed k.Minus) 20 terminals.now) }
{
    match next(terminals) {
        Some((Terminal::Number { value, long }, left)) => {
            let tree = PrimaryTree::Number {
                negative: true,
                value: *value,
                long: *long,
            };
            Ok((tree, left))
        }
        _ => Err(ReadFault::at(terminals)),
    }
}

/// `or )`, behind `(`.
fn paren<'a, F>(
    nest: &Nest<F>,
    terminals: &'a [Terminal],
) -> Result<(PrimaryTree, &'a [Terminal]), ReadFault>
where
    F: Fn(&'a [Terminal]) -> Result<(Boxed<OrTree>, &'a [Terminal]), ReadFault>,
    requires nests { Nests F.Fn nest.now.read nest.now.room }
    requires room { length terminals.now < nest.now.room }
    ensures { MatchResult result
        (λ x. Part (Keyed k.Open) 20 terminals.now x.0 x.1.now)
        (λ e. IsRefusal e → Refuses (Keyed k.Open) 20 terminals.now) }
{
    let (value, rest) = inner(nest, terminals)?;
    let (value, left) = beside(value, expect(rest, Key::Close))?;
    Ok((PrimaryTree::Paren(value), left))
}

/// `AS type )`
fn as_type(terminals: &[Terminal]) -> Result<(SqlType, &[Terminal]), ReadFault>
    ensures { MatchResult result
        (λ x. IsAsType x.0 terminals.now x.1.now)
        (λ e. IsRefusal e → Never IsAsType terminals.now) }
{
    let after = expect(terminals, Key::As)?;
    let Some((kind, rest)) = type_at(after) else {
        return Err(ReadFault::at(after));
    };
    let left = expect(rest, Key::Close)?;
    Ok((kind, left))
}

/// `( or AS type )`, behind CAST.
fn cast<'a, F>(
    nest: &Nest<F>,
    terminals: &'a [Terminal],
) -> Result<(PrimaryTree, &'a [Terminal]), ReadFault>
where
    F: Fn(&'a [Terminal]) -> Result<(Boxed<OrTree>, &'a [Terminal]), ReadFault>,
    requires nests { Nests F.Fn nest.now.read nest.now.room }
    requires room { length terminals.now < nest.now.room }
    ensures { MatchResult result
        (λ x. Part (Keyed k.Cast) 20 terminals.now x.0 x.1.now)
        (λ e. IsRefusal e → Refuses (Keyed k.Cast) 20 terminals.now) }
{
    let inside = expect(terminals, Key::Open)?;
    let (value, rest) = inner(nest, inside)?;
    let (value, (kind, left)) = beside(value, as_type(rest))?;
    Ok((PrimaryTree::Cast { value, kind }, left))
}

/// What begins with a name.
fn named<'a, F>(
    nest: &Nest<F>,
    text: &Text,
    quoted: bool,
    terminals: &'a [Terminal],
) -> Result<(PrimaryTree, &'a [Terminal]), ReadFault>
where
    F: Fn(&'a [Terminal]) -> Result<(Boxed<OrTree>, &'a [Terminal]), ReadFault>,
    requires nests { Nests F.Fn nest.now.read nest.now.room }
    requires room { length terminals.now < nest.now.room }
    ensures { MatchResult result
        (λ x. Part (Named text.now quoted) 20 terminals.now x.0 x.1.now)
        (λ e. IsRefusal e → Refuses (Named text.now quoted) 20 terminals.now) }
{
    if let Some(after) = eat(terminals, Key::Dot) {
        return dotted(nest.alloc, text, quoted, after);
    }
    if let Some(after) = eat(terminals, Key::Open) {
        return called(nest, text, quoted, after);
    }
    Ok((PrimaryTree::Column(copied(nest.alloc, text)?), terminals))
}

/// `name`, behind the name of a table and a point.
fn dotted<'a>(
    alloc: Global,
    text: &Text,
    quoted: bool,
    terminals: &'a [Terminal],
) -> Result<(PrimaryTree, &'a [Terminal]), ReadFault>
    ensures { MatchResult result
        (λ x. Part (Dotted text.now quoted) 20 terminals.now x.0 x.1.now)
        (λ e. IsRefusal e → Refuses (Dotted text.now quoted) 20 terminals.now) }
{
    let Some((column, _, left)) = name(terminals) else {
        return Err(ReadFault::at(terminals));
    };
    let table = copied(alloc, text)?;
    let name = copied(alloc, column)?;
    Ok((PrimaryTree::TableColumn { table, name }, left))
}

/// `)`, behind `count ( *`.
fn counted<'a>(
    text: &Text,
    quoted: bool,
    terminals: &'a [Terminal],
) -> Result<(PrimaryTree, &'a [Terminal]), ReadFault>
    requires { is_word count_word text.now ≡ true }
    ensures { MatchResult result
        (λ x. Part (Counted text.now quoted) 20 terminals.now x.0 x.1.now)
        (λ e. IsRefusal e → Refuses (Counted text.now quoted) 20 terminals.now) }
{
    let left = expect(terminals, Key::Close)?;
    Ok((PrimaryTree::CountAll, left))
}

/// `* )` or `or {, or} )`, behind the name of a function and `(`.
fn called<'a, F>(
    nest: &Nest<F>,
    text: &Text,
    quoted: bool,
    terminals: &'a [Terminal],
) -> Result<(PrimaryTree, &'a [Terminal]), ReadFault>
where
    F: Fn(&'a [Terminal]) -> Result<(Boxed<OrTree>, &'a [Terminal]), ReadFault>,
    requires nests { Nests F.Fn nest.now.read nest.now.room }
    requires room { length terminals.now < nest.now.room }
    ensures { MatchResult result
        (λ x. Part (Called text.now quoted) 20 terminals.now x.0 x.1.now)
        (λ e. IsRefusal e → Refuses (Called text.now quoted) 20 terminals.now) }
{
    if let Some(after) = star_at(text, terminals) {
        return counted(text, quoted, after);
    }
    let (arguments, rest) = list(nest, terminals)?;
    let (arguments, left) = beside(arguments, expect(rest, Key::Close))?;
    let (arguments, name) = beside(arguments, own(nest.alloc, text))?;
    Ok((PrimaryTree::call(name, arguments), left))
}
