//! CREATE TABLE.

ghost use Rattle.std.specs.Prelude.{OnOk};
ghost use Rattle.aqe_trees.specs.Lists.{Listed};
ghost use Rattle.aqe_trees.specs.Tables.{IsColumn, IsOption, IsPlace, IsCreate};
ghost use Rattle.aqe_phrases.specs.Written.{Spelled};
ghost use Rattle.aqe_spell.specs.Clauses.{SpelledWhole, IsOptions};

use aqe_phrases::leaf::type_word;
use aqe_phrases::word::{fixed, literal, name, word};
use aqe_trees::{Key, TableForm};
use aqe_values::{SqlType, Text};
use std::alloc::AllocError;

/// Writes a column and its type.
fn column(out: &mut Vec<u8>, pair: &(Text, SqlType)) -> Result<(), AllocError>
    ensures { OnOk result (Spelled IsColumn pair.now out.old.items out.new.items) }
{
    name(out, &pair.0)?;
    type_word(out, pair.1)?;
    Ok(())
}

/// Writes columns with commas between them.
fn columns(out: &mut Vec<u8>, columns: &[(Text, SqlType)]) -> Result<(), AllocError>
    ensures { OnOk result (Spelled (Listed IsColumn) columns.now out.old.items out.new.items) }
{
    let Some((first, rest)) = columns.split_first() else {
        return Ok(());
    };
    column(out, first)?;
    'more: for next in rest {
        fixed(out, Key::Comma)?;
        column(out, next)?;
    }
    Ok(())
}

/// Writes the key and the value of an option as strings.
fn option(out: &mut Vec<u8>, pair: &(Text, Text)) -> Result<(), AllocError>
    ensures { OnOk result (Spelled IsOption pair.now out.old.items out.new.items) }
{
    literal(out, &pair.0)?;
    literal(out, &pair.1)?;
    Ok(())
}

/// Writes options with commas between them.
fn options(out: &mut Vec<u8>, options: &[(Text, Text)]) -> Result<(), AllocError>
    ensures { OnOk result (Spelled (Listed IsOption) options.now out.old.items out.new.items) }
{
    let Some((first, rest)) = options.split_first() else {
        return Ok(());
    };
    option(out, first)?;
    'more: for next in rest {
        fixed(out, Key::Comma)?;
        option(out, next)?;
    }
    Ok(())
}

/// Writes OPTIONS, where there are any.
fn all_options(out: &mut Vec<u8>, pairs: &[(Text, Text)]) -> Result<(), AllocError>
    ensures { OnOk result (Spelled IsOptions pairs.now out.old.items out.new.items) }
{
    match pairs.split_first() {
        None => Ok(()),
        Some(_) => {
            word(out, "OPTIONS")?;
            fixed(out, Key::Open)?;
            options(out, pairs)?;
            fixed(out, Key::Close)?;
            Ok(())
        }
    }
}

/// Writes OPTIONS and LOCATION.
fn place(out: &mut Vec<u8>, pairs: &[(Text, Text)], location: &Text) -> Result<(), AllocError>
    ensures { OnOk result (SpelledWhole (IsPlace pairs.now location.now) out.old.items out.new.items) }
{
    all_options(out, pairs)?;
    word(out, "LOCATION")?;
    literal(out, location)?;
    Ok(())
}

/// Writes a CREATE TABLE.
pub(crate) fn table(out: &mut Vec<u8>, form: &TableForm) -> Result<(), AllocError>
    ensures { OnOk result (SpelledWhole (IsCreate form.now) out.old.items out.new.items) }
{
    fixed(out, Key::Create)?;
    word(out, "TABLE")?;
    name(out, &form.name)?;
    fixed(out, Key::Open)?;
    columns(out, form.columns.slice())?;
    fixed(out, Key::Close)?;
    fixed(out, Key::Using)?;
    word(out, "CSV")?;
    place(out, form.options.slice(), &form.location)?;
    Ok(())
}
