//! The columns of a table that is created.

ghost use Rattle.std.specs.Prelude.{◌≡◌, [], map, option_map, IfOk};
ghost use Rattle.std.specs.Str.{str_to_ascii_lowercase};
ghost use Rattle.aqe_tables.specs.Catalog.{column_of as column_of_form, repeated_name as repeated_name_of};

use aqe_values::{Field, Memory, Schema, SqlType, Text};
use indexmap::IndexSet;
use std::alloc::Global;

/// The text with its ASCII letters in lower case.
fn lowered(alloc: Global, text: &Text) -> Result<Text, Memory>
    ensures { IfOk result (λ low. low ≡ str_to_ascii_lowercase text.now) }
{
    match text.as_str().to_ascii_lowercase(alloc) {
        Ok(low) => Text::copy_of(alloc, low.as_str()),
        Err(_) => Err(Memory),
    }
}

/// The name of the first column that has the name of one before it, but for the cases of ASCII letters.
pub(crate) fn repeated_name(
    alloc: Global,
    columns: &[(Text, SqlType)],
) -> Result<Option<&Text>, Memory>
    ensures { IfOk result (λ name. option_map (λ text. text.now) name ≡ repeated_name_of [] columns.now) }
{
    let mut names = IndexSet::new(alloc);
    'columns: for column in columns {
        let name = lowered(alloc, &column.0)?;
        match names.insert(name) {
            Ok(true) => {}
            Ok(false) => return Ok(Some(&column.0)),
            Err(_) => return Err(Memory),
        }
    }
    Ok(None)
}

fn copy_column(alloc: Global, column: &(Text, SqlType)) -> Result<Field, Memory>
    ensures { IfOk result (λ field. field ≡ column_of_form column.now) }
{
    let name = Text::copy_of(alloc, column.0.as_str())?;
    Ok(Field {
        name,
        kind: column.1,
    })
}

/// The columns as the catalog keeps them.
pub(crate) fn copy_columns(alloc: Global, columns: &[(Text, SqlType)]) -> Result<Schema, Memory>
    ensures { IfOk result (λ schema. schema ≡ map column_of_form columns.now) }
{
    let mut schema = Schema::new(alloc);
    'columns: for column in columns {
        schema.push(copy_column(alloc, column)?)?;
    }
    Ok(schema)
}
