//! Tables with options, which no script has yet, over files in memory.

ghost use Rattle.aqe_tables.specs.Loaded.{IsLoaded};

use aqe_base::Bytes;
use aqe_store::{Files, Name, SteadyStore};
use aqe_tables::{Catalog, CreateFault, Tables};
use aqe_trees::{ColumnForms, OptionForms, TableForm};
use aqe_values::{Row, SqlType, Text, Value};
use std::alloc::Global;
use std::test::Fail;

fn text_of(alloc: Global, text: &str) -> Result<Text, Fail> {
    if text.len() > 1000 {
        return Err(Fail::new("a long text"));
    }
    Ok(Text::copy_of(alloc, text)?)
}

fn columns_of(alloc: Global, columns: &[(&str, SqlType)]) -> Result<ColumnForms, Fail> {
    let mut forms = ColumnForms::new(alloc);
    for (column, kind) in columns {
        forms.push((text_of(alloc, column)?, *kind))?;
    }
    Ok(forms)
}

fn options_of(alloc: Global, options: &[(&str, &str)]) -> Result<OptionForms, Fail> {
    let mut forms = OptionForms::new(alloc);
    for (key, value) in options {
        forms.push((text_of(alloc, key)?, text_of(alloc, value)?))?;
    }
    Ok(forms)
}

/// A table over the folder `t`.
pub fn form_of(
    alloc: Global,
    columns: &[(&str, SqlType)],
    options: &[(&str, &str)],
) -> Result<TableForm, Fail> {
    Ok(TableForm {
        name: text_of(alloc, "t")?,
        columns: columns_of(alloc, columns)?,
        options: options_of(alloc, options)?,
        location: text_of(alloc, "t")?,
    })
}

/// How the first table is created.
fn created(
    alloc: Global,
    columns: &[(&str, SqlType)],
    options: &[(&str, &str)],
) -> Result<Result<u32, CreateFault>, Fail> {
    let form = form_of(alloc, columns, options)?;
    let mut catalog = Catalog::new(alloc);
    Ok(catalog.create(&form))
}

#[test]
fn a_table_is_found(rt: HostRuntime) -> Result<(), Fail> {
    let alloc = rt.alloc();
    let form = form_of(alloc, &[("a", SqlType::Int), ("b", SqlType::Text)], &[])?;
    let mut catalog = Catalog::new(alloc);
    catalog.create(&form)?;
    assert_eq!(rt; catalog.find(&text_of(alloc, "T")?), Some(0));
    assert_eq!(rt; catalog.schema(0).len(), 2);
    Ok(())
}

/// Whether a table with this option is refused for it.
fn is_bad_option(alloc: Global, key: &str, value: &str) -> Result<bool, Fail> {
    let end = created(alloc, &[("a", SqlType::Int)], &[(key, value)])?;
    Ok(matches!(end, Err(CreateFault::BadOption { .. })))
}

#[test]
fn options_are_checked(rt: HostRuntime) -> Result<(), Fail> {
    for (key, value, refused) in [
        ("sep", "~", false),
        ("SEP", " ", false),
        ("sep", "\"", true),
        ("sep", "\\", true),
        ("sep", "\t", true),
        ("sep", "é", true),
        ("sep", "", true),
        ("sep", "true", true),
        ("Delimiter", ";", false),
        ("delimiter", "~~", true),
        ("Header", "TRUE", false),
        ("header", "false", false),
        ("header", "yes", true),
        ("header", " true", true),
        ("seps", "~", true),
        ("quote", "'", true),
    ] {
        assert_eq!(rt;
            is_bad_option(rt.alloc(), key, value)?,
            refused,
            "{key} {value}"
        );
    }
    Ok(())
}

/// The key that is told where a table has these two options.
fn told_option(alloc: Global, first: &str, second: &str) -> Result<String, Fail> {
    let options = [(first, "1"), (second, "2")];
    match created(alloc, &[("a", SqlType::Int)], &options)? {
        Err(CreateFault::BadOption { key }) => Ok(String::from_str(alloc, key.as_str())?),
        _ => Err(Fail::new("no option is refused")),
    }
}

#[test]
fn an_option_stands_once(rt: HostRuntime) -> Result<(), Fail> {
    assert_eq!(rt; told_option(rt.alloc(), "sep", "SEP")?.as_str(), "SEP");
    assert_eq!(rt;
        told_option(rt.alloc(), "sep", "Delimiter")?.as_str(),
        "Delimiter"
    );
    assert_eq!(rt;
        told_option(rt.alloc(), "header", "seps")?.as_str(),
        "header"
    );
    Ok(())
}

/// Files by their paths.
pub fn files_of(alloc: Global, files: &[(&str, &str)]) -> Result<Files, Fail> {
    let mut held = Files::new(alloc);
    for (path, text) in files {
        let bytes = Bytes::from_vec(Vec::from_slice(alloc, text.as_bytes())?);
        held.push((Name::copy_of(alloc, path)?, bytes))?;
    }
    Ok(held)
}

fn push_value(alloc: Global, text: &mut String, value: &Value) -> Result<(), Fail> {
    match value {
        Value::Null => text.push('-')?,
        Value::Boolean(b) => text.push_str(format!(in alloc; "{b}")?.as_str())?,
        Value::Int(n) => text.push_str(format!(in alloc; "{n}")?.as_str())?,
        Value::BigInt(n) => text.push_str(format!(in alloc; "{n}L")?.as_str())?,
        Value::Text(word) => text.push_str(word.as_str())?,
    }
    Ok(())
}

fn push_row(alloc: Global, text: &mut String, row: &Row) -> Result<(), Fail> {
    for value in row.values() {
        push_value(alloc, text, value)?;
        text.push(' ')?;
    }
    text.push('.')?;
    Ok(())
}

/// The rows of a loaded table: a point behind each row, and a stroke behind each file.
fn shown(alloc: Global, tables: &Tables, table: u32) -> Result<String, Fail>
    requires { IsLoaded tables.now table }
{
    let mut text = String::new(alloc);
    for file in 0..tables.files(table) {
        for row in tables.rows(table, file).slice() {
            push_row(alloc, &mut text, row)?;
        }
        text.push('/')?;
    }
    Ok(text)
}

/// The rows that the files of `t` give under a form.
fn loaded(alloc: Global, form: &TableForm, files: &[(&str, &str)]) -> Result<String, Fail> {
    let mut catalog = Catalog::new(alloc);
    let table = catalog.create(form)?;
    let mut store = SteadyStore::new(alloc, files_of(alloc, files)?);
    let mut tables = Tables::new(alloc);
    tables.load(&mut store, &catalog, table)?;
    shown(alloc, &tables, table)
}

#[test]
fn files_are_read_in_order_of_names(rt: HostRuntime) -> Result<(), Fail> {
    let alloc = rt.alloc();
    let columns = [
        ("a", SqlType::Boolean),
        ("b", SqlType::BigInt),
        ("c", SqlType::Int),
        ("d", SqlType::Text),
    ];
    let form = form_of(alloc, &columns, &[("header", "TRUE"), ("sep", ";")])?;
    let first = "a;b;c;d\nTrue;9223372036854775807;-2147483648;x,y;z\n";
    let second = "a\n\n1;9223372036854775808;2147483648;\n;+5;007\n";
    let files = [
        ("t/b", second),
        ("t/a", first),
        ("t/_x", second),
        ("t/.y", second),
        ("t/B", ""),
    ];
    assert_eq!(rt;
        loaded(alloc, &form, &files)?.as_str(),
        "/true 9223372036854775807L -2147483648 x,y ./- - - - .- 5L 7 - ./"
    );
    assert_eq!(rt; loaded(alloc, &form, &[("t/_x", "")])?.as_str(), "/");
    Ok(())
}
