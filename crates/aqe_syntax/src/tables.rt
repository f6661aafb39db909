//! CREATE TABLE.

ghost use Rattle.std.specs.Prelude.{◌≡◌, MatchOption, MatchResult};
ghost use Rattle.aqe_trees.specs.Lists.{Listed};
ghost use Rattle.aqe_trees.specs.Tables.{IsColumn, IsOption, IsPlace, IsCreate};
ghost use Rattle.aqe_trees.specs.Words as words;
ghost use Rattle.aqe_reader.specs.Reading.{Read, Refuses, Taken, Never, IsRefusal};
ghost use Rattle.aqe_syntax.specs.TableParts.{IsTheWord, IsType, IsHead, IsFormat, IsOptionKey, IsEqual, IsOptionValue, IsLocation, IsLastLocation, IsOptionsPlace, IsLateOptions};

use crate::words::{copied, is_word, literal, word};
use aqe_base::Listing;
use aqe_reader::ReadFault;
use aqe_reader::cursor::{eat, expect, name};
use aqe_trees::{ColumnForms, Key, OptionForms, TableForm, Terminal};
use aqe_values::{SqlType, Text};
use std::alloc::Global;

/// The CREATE TABLE that the terminals spell, all of them.
pub fn create(alloc: Global, terminals: &[Terminal]) -> Result<TableForm, ReadFault>
    ensures { MatchResult result
        (λ form. IsCreate form terminals.now)
        (λ e. IsRefusal e → (form : _) → IsCreate form terminals.now → ⊥) }
{
    let (table, start) = head(terminals)?;
    let (columns, behind) = columns(alloc, start)?;
    let rest = format(behind)?;
    let (options, location) = place(alloc, rest)?;
    let name = copied(alloc, table)?;
    Ok(TableForm {
        name,
        columns,
        options,
        location,
    })
}

/// What stands behind a word that is not reserved, where it comes first.
fn the_word<'a>(terminals: &'a [Terminal], wanted: &str) -> Option<&'a [Terminal]>
    ensures { MatchOption result
        ((us : _) → IsTheWord wanted.now terminals.now us → ⊥)
        (λ rest. IsTheWord wanted.now terminals.now rest.now) }
{
    let Some((text, rest)) = word(terminals) else {
        return None;
    };
    if is_word(text, wanted) {
        Some(rest)
    } else {
        None
    }
}

/// What stands behind a word that is not reserved, with which alone a statement goes on here.
fn expect_word<'a>(terminals: &'a [Terminal], wanted: &str) -> Result<&'a [Terminal], ReadFault>
    ensures { MatchResult result
        (λ rest. IsTheWord wanted.now terminals.now rest.now)
        (λ e. IsRefusal e → (us : _) → IsTheWord wanted.now terminals.now us → ⊥) }
{
    match the_word(terminals, wanted) {
        Some(rest) => Ok(rest),
        None => Err(ReadFault::at(terminals)),
    }
}

/// `CREATE TABLE name (`: the name, and what stands behind.
fn head(terminals: &[Terminal]) -> Result<(&Text, &[Terminal]), ReadFault>
    ensures { MatchResult result
        (λ x. IsHead x.0.now terminals.now x.1.now)
        (λ e. IsRefusal e → (name : _) (us : _) → IsHead name terminals.now us → ⊥) }
{
    let after = expect(terminals, Key::Create)?;
    let behind = expect_word(after, "table")?;
    let Some((table, _, open)) = name(behind) else {
        return Err(ReadFault::at(behind));
    };
    let rest = expect(open, Key::Open)?;
    Ok((table, rest))
}

/// `) USING csv`
fn format(terminals: &[Terminal]) -> Result<&[Terminal], ReadFault>
    ensures { MatchResult result
        (λ rest. IsFormat terminals.now rest.now)
        (λ e. IsRefusal e → (us : _) → IsFormat terminals.now us → ⊥) }
{
    let close = expect(terminals, Key::Close)?;
    let using = expect(close, Key::Using)?;
    let rest = expect_word(using, "csv")?;
    Ok(rest)
}

/// The type that a word names.
fn type_named(text: &Text) -> Option<SqlType>
    ensures { result ≡ words.type_named text.now }
{
    if is_word(text, "int") {
        return Some(SqlType::Int);
    }
    if is_word(text, "integer") {
        return Some(SqlType::Int);
    }
    if is_word(text, "bigint") {
        return Some(SqlType::BigInt);
    }
    if is_word(text, "long") {
        return Some(SqlType::BigInt);
    }
    if is_word(text, "string") {
        return Some(SqlType::Text);
    }
    if is_word(text, "boolean") {
        return Some(SqlType::Boolean);
    }
    None
}

/// The type that comes first, and what stands behind it.
fn type_at(terminals: &[Terminal]) -> Option<(SqlType, &[Terminal])>
    ensures { MatchOption result
        ((kind : _) (us : _) → IsType kind terminals.now us → ⊥)
        (λ x. IsType x.0 terminals.now x.1.now) }
{
    let Some((text, rest)) = word(terminals) else {
        return None;
    };
    let Some(kind) = type_named(text) else {
        return None;
    };
    Some((kind, rest))
}

/// `name type`
fn column(
    alloc: Global,
    terminals: &[Terminal],
) -> Result<((Text, SqlType), &[Terminal]), ReadFault>
    ensures { MatchResult result
        (λ x. Read IsColumn 10 terminals.now x.0 x.1.now)
        (λ e. IsRefusal e → Refuses IsColumn 10 terminals.now) }
{
    let Some((text, _, after)) = name(terminals) else {
        return Err(ReadFault::at(terminals));
    };
    let Some((kind, rest)) = type_at(after) else {
        return Err(ReadFault::at(after));
    };
    let column = (copied(alloc, text)?, kind);
    Ok((column, rest))
}

/// `column {, column}`
fn columns(alloc: Global, terminals: &[Terminal]) -> Result<(ColumnForms, &[Terminal]), ReadFault>
    ensures { MatchResult result
        (λ x. Read (Listed IsColumn) 9 terminals.now x.0 x.1.now)
        (λ e. IsRefusal e → Refuses (Listed IsColumn) 9 terminals.now) }
{
    let (first, mut rest) = column(alloc, terminals)?;
    let mut columns = Listing::new(alloc);
    columns.push(first)?;
    'more: while let Some(after) = eat(rest, Key::Comma) {
        let (next, left) = column(alloc, after)?;
        columns.push(next)?;
        rest = left;
    }
    Ok((columns, rest))
}

/// The key of an option: a name or a string.
fn option_key(terminals: &[Terminal]) -> Option<(&Text, &[Terminal])>
    ensures { MatchOption result
        ((key : _) (us : _) → IsOptionKey key terminals.now us → ⊥)
        (λ x. IsOptionKey x.0.now terminals.now x.1.now) }
{
    if let Some((text, _, rest)) = name(terminals) {
        return Some((text, rest));
    }
    if let Some((text, rest)) = literal(terminals) {
        return Some((text, rest));
    }
    None
}

/// What stands behind `=`, which may be left out.
fn behind_equal(terminals: &[Terminal]) -> &[Terminal]
    ensures { IsEqual terminals.now result.now }
{
    match eat(terminals, Key::Equal) {
        Some(rest) => rest,
        None => terminals,
    }
}

/// The value of an option: a string, TRUE or FALSE.
fn option_value(alloc: Global, terminals: &[Terminal]) -> Result<(Text, &[Terminal]), ReadFault>
    ensures { MatchResult result
        (λ x. Taken IsOptionValue terminals.now x.0 x.1.now)
        (λ e. IsRefusal e → Never IsOptionValue terminals.now) }
{
    if let Some((text, rest)) = literal(terminals) {
        return Ok((copied(alloc, text)?, rest));
    }
    if let Some(rest) = eat(terminals, Key::True) {
        return Ok((Text::copy_of(alloc, "true")?, rest));
    }
    if let Some(rest) = eat(terminals, Key::False) {
        return Ok((Text::copy_of(alloc, "false")?, rest));
    }
    Err(ReadFault::at(terminals))
}

/// `(name | string) [=] (string | TRUE | FALSE)`
fn option(alloc: Global, terminals: &[Terminal]) -> Result<((Text, Text), &[Terminal]), ReadFault>
    ensures { MatchResult result
        (λ x. Read IsOption 10 terminals.now x.0 x.1.now)
        (λ e. IsRefusal e → Refuses IsOption 10 terminals.now) }
{
    let Some((text, after)) = option_key(terminals) else {
        return Err(ReadFault::at(terminals));
    };
    let (value, rest) = option_value(alloc, behind_equal(after))?;
    let key = copied(alloc, text)?;
    Ok(((key, value), rest))
}

/// `option {, option}`
fn options(alloc: Global, terminals: &[Terminal]) -> Result<(OptionForms, &[Terminal]), ReadFault>
    ensures { MatchResult result
        (λ x. Read (Listed IsOption) 9 terminals.now x.0 x.1.now)
        (λ e. IsRefusal e → Refuses (Listed IsOption) 9 terminals.now) }
{
    let (first, mut rest) = option(alloc, terminals)?;
    let mut options = Listing::new(alloc);
    options.push(first)?;
    'more: while let Some(after) = eat(rest, Key::Comma) {
        let (next, left) = option(alloc, after)?;
        options.push(next)?;
        rest = left;
    }
    Ok((options, rest))
}

/// `LOCATION string`: the string, and what stands behind it.
fn location_at(terminals: &[Terminal]) -> Result<(&Text, &[Terminal]), ReadFault>
    ensures { MatchResult result
        (λ x. IsLocation x.0.now terminals.now x.1.now)
        (λ e. IsRefusal e → (text : _) (us : _) → IsLocation text terminals.now us → ⊥) }
{
    let after = expect_word(terminals, "location")?;
    let Some((text, rest)) = literal(after) else {
        return Err(ReadFault::at(after));
    };
    Ok((text, rest))
}

/// `) LOCATION string`, where nothing stands behind it.
fn last_location(terminals: &[Terminal]) -> Result<&Text, ReadFault>
    ensures { MatchResult result
        (λ text. IsLastLocation text.now terminals.now)
        (λ e. IsRefusal e → (text : _) → IsLastLocation text terminals.now → ⊥) }
{
    let after = expect(terminals, Key::Close)?;
    let (text, rest) = location_at(after)?;
    if rest.is_empty() {
        Ok(text)
    } else {
        Err(ReadFault::at(rest))
    }
}

/// `OPTIONS ( option {, option} )` at most once and `LOCATION string` once, in either order, and nothing behind them.
fn place(alloc: Global, terminals: &[Terminal]) -> Result<(OptionForms, Text), ReadFault>
    ensures { MatchResult result
        (λ x. IsPlace x.0 x.1 terminals.now)
        (λ e. IsRefusal e → (options : _) (text : _) → IsPlace options text terminals.now → ⊥) }
{
    if let Some(after) = the_word(terminals, "options") {
        return options_place(alloc, after);
    }
    let (text, rest) = location_at(terminals)?;
    let options = late_options(alloc, rest)?;
    let location = copied(alloc, text)?;
    Ok((options, location))
}

/// `( option {, option} ) LOCATION string`, where nothing stands behind it.
fn options_place(alloc: Global, terminals: &[Terminal]) -> Result<(OptionForms, Text), ReadFault>
    ensures { MatchResult result
        (λ x. IsOptionsPlace x.0 x.1 terminals.now)
        (λ e. IsRefusal e → (options : _) (text : _) → IsOptionsPlace options text terminals.now → ⊥) }
{
    let inside = expect(terminals, Key::Open)?;
    let (options, rest) = options(alloc, inside)?;
    let text = last_location(rest)?;
    let location = copied(alloc, text)?;
    Ok((options, location))
}

/// `[OPTIONS ( option {, option} )]`, where nothing stands behind it.
fn late_options(alloc: Global, terminals: &[Terminal]) -> Result<OptionForms, ReadFault>
    ensures { MatchResult result
        (λ options. IsLateOptions options terminals.now)
        (λ e. IsRefusal e → (options : _) → IsLateOptions options terminals.now → ⊥) }
{
    if terminals.is_empty() {
        return Ok(Listing::new(alloc));
    }
    let open = expect_word(terminals, "options")?;
    let inside = expect(open, Key::Open)?;
    let (options, close) = options(alloc, inside)?;
    let rest = expect(close, Key::Close)?;
    if rest.is_empty() {
        Ok(options)
    } else {
        Err(ReadFault::at(rest))
    }
}
