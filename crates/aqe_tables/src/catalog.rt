//! The tables that were created.

ghost use Rattle.std.specs.Prelude.{◌≡◌, ◌≢◌, ◌⊎◌, ◌≤◌, ◌<◌, ◌-◌, ◌^◌, [], ◌∷◌, ◌++◌, None, Some, length, slice_get, IfOk, IfErr, OnOk, OnErr};
ghost use Rattle.std.specs.List.{find as find_in};
ghost use Rattle.std.specs.Option.{option_map};
ghost use Rattle.aqe_tables.specs.Catalog.{catalog_table, column_limit, create_fault, find_table};
ghost use Rattle.aqe_tables.specs.Index.{is_named};
ghost use Rattle.aqe_tables.specs.Loaded.{AreShaped, Slots};
ghost use Rattle.aqe_tables.specs.declared.catalog.CreateFault.TheVariants as fault;

use crate::columns::{copy_columns, repeated_name};
use crate::index::{NameIndex, name_hash};
use crate::options::{bad_key, has_header, is_same_word, separator_of};
use aqe_records::FileForm;
use aqe_trees::TableForm;
use aqe_values::{Memory, Schema, Text};
use std::alloc::Global;
use std::marker::Model;

/// The most columns of a table.
const COLUMN_LIMIT: usize = 256;

/// Why a table is not created.
#[derive(Debug, Drop)]
pub enum CreateFault {
    /// Two columns have one name, but for the cases of ASCII letters.
    RepeatedColumn {
        /// The name as the later column writes it.
        name: Text,
    },
    /// There are more than 256 columns.
    TooManyColumns,
    /// An option is unknown, has a value that it may not have, or came before.
    BadOption {
        /// The option's key as it is written.
        key: Text,
    },
    /// A table of this name was created before.
    TableExists,
    /// An allocation failed.
    Memory,
}

impl From<Memory> for CreateFault {
    ghost from_gives = { λ _ e. e ≡ fault.Memory };

    fn from(_error: Memory) -> CreateFault {
        CreateFault::Memory
    }
}

/// What the catalog keeps of a table.
#[derive(Drop)]
pub struct CatalogTable {
    /// The name as it is written.
    pub name: Text,
    /// The folder of the data files.
    pub location: Text,
    /// How the files are read.
    pub form: FileForm,
}

/// The tables that were created, which contracts see as a list: a table's number is its place.
#[derive(Drop)]
pub struct Catalog {
    alloc: Global,
    tables: Vec<CatalogTable>,
    names: NameIndex,
}

impl Model for Catalog {
    ghost use Rattle.std.specs.Prelude.{List, All, ◌≤◌, ◌<◌, ◌^◌, length};
    ghost use Rattle.aqe_tables.specs.declared.catalog.CatalogTable.{CatalogTable as TableData};
    ghost use Rattle.aqe_tables.specs.Index.{IsIndex};
    ghost use Rattle.aqe_tables.specs.Widths.{AreNarrow};

    ghost Value = { List TableData };

    ghost view = { λ c. c.tables.items };

    ghost invariant = { λ c. (length c.tables.items < 2 ^ 32) × AreNarrow c.tables.items
        × IsIndex c.names.numbers c.tables.items };
}

/// Whether the table of the number has the name.
fn has_name(tables: &[CatalogTable], name: &str, number: u32) -> bool
    ensures { result ≡ is_named tables.now name.now number }
{
    match tables.get(number as usize) {
        Some(table) => is_same_word(table.name.as_str(), name),
        None => false,
    }
}

/// The first of the numbers whose table has the name.
fn first_named(tables: &[CatalogTable], name: &str, numbers: &[u32]) -> Option<u32>
    ensures { result ≡ find_in (is_named tables.now name.now) numbers.now }
{
    numbers
        .iter()
        .copied()
        .find(|number| has_name(tables, name, *number))
}

fn file_form_of(alloc: Global, form: &TableForm) -> Result<FileForm, Memory>
    ensures { IfOk result (λ kept. kept ≡ (catalog_table form.now).form) }
{
    let schema = copy_columns(alloc, form.columns.slice())?;
    let header = has_header(form.options.slice());
    let separator = separator_of(form.options.slice());
    Ok(FileForm {
        schema,
        header,
        separator,
    })
}

fn table_of(alloc: Global, form: &TableForm) -> Result<CatalogTable, Memory>
    ensures { IfOk result (λ table. table ≡ catalog_table form.now) }
{
    let name = Text::copy_of(alloc, form.name.as_str())?;
    let location = Text::copy_of(alloc, form.location.as_str())?;
    let form = file_form_of(alloc, form)?;
    Ok(CatalogTable {
        name,
        location,
        form,
    })
}

impl Catalog {
    /// The catalog without tables. It takes no memory until the first `create`.
    pub fn new(alloc: Global) -> Catalog
        ensures { result ≡ [] }
    {
        Catalog {
            alloc,
            tables: Vec::new(alloc),
            names: NameIndex::new(alloc),
        }
    }

    /// Checks a table before it is created.
    fn check(&self, form: &TableForm) -> Result<(), CreateFault>
        ensures passed { OnOk result (create_fault self.now form.now ≡ None) }
        ensures failed { IfErr result (λ e. (e ≡ fault.Memory)
            ⊎ (create_fault self.now form.now ≡ Some e)) }
    {
        if let Some(name) = repeated_name(self.alloc, form.columns.slice())? {
            let name = Text::copy_of(self.alloc, name.as_str())?;
            return Err(CreateFault::RepeatedColumn { name });
        }
        if form.columns.len() > COLUMN_LIMIT {
            return Err(CreateFault::TooManyColumns);
        }
        if let Some(key) = bad_key(form.options.slice()) {
            let key = Text::copy_of(self.alloc, key.as_str())?;
            return Err(CreateFault::BadOption { key });
        }
        match self.find(&form.name) {
            Some(_) => Err(CreateFault::TableExists),
            None => Ok(()),
        }
    }

    /// Puts a table behind the others, and its number under the hash of its name.
    fn put(&mut self, table: CatalogTable) -> Result<u32, Memory>
        requires room { length self.old < 2 ^ 32 - 1 }
        requires narrow { length table.form.schema ≤ column_limit }
        ensures put { IfOk result (λ number. (number ≡ length self.old)
            × (self.new ≡ self.old ++ table ∷ [])) }
        ensures kept { OnErr result (self.new ≡ self.old) }
    {
        let number = self.tables.len() as u32;
        let hash = name_hash(table.name.as_str());
        if self.tables.push(table).is_err() {
            return Err(Memory);
        }
        match self.names.add(hash, number) {
            Ok(()) => Ok(number),
            Err(error) => {
                self.tables.truncate(number as usize);
                Err(error)
            }
        }
    }

    /// Creates the table of this form, and answers its number, which is how many were created before.
    pub fn create(&mut self, form: &TableForm) -> Result<u32, CreateFault>
        requires { length self.old < 2 ^ 32 - 1 }
        ensures created { IfOk result (λ number. (number ≡ length self.old)
            × (self.new ≡ self.old ++ catalog_table form.now ∷ [])) }
        ensures passed { OnOk result (create_fault self.old form.now ≡ None) }
        // Each refusal but want of memory is that of the first check that fails.
        ensures failed { IfErr result (λ e. (e ≡ fault.Memory)
            ⊎ (create_fault self.old form.now ≡ Some e)) }
        ensures kept { OnErr result (self.new ≡ self.old) }
        // Loaded tables keep their shapes, since the numbers of earlier tables stay.
        ensures shapes { (slots : Slots) → AreShaped self.old slots → AreShaped self.new slots }
    {
        self.check(form)?;
        let table = table_of(self.alloc, form)?;
        let number = self.put(table)?;
        Ok(number)
    }

    /// The number of the table of this name, whatever the cases of its ASCII letters.
    ///
    /// The name is hashed and then compared with the names of that hash alone.
    pub fn find(&self, name: &Text) -> Option<u32>
        ensures { result ≡ find_table self.now name.now }
    {
        let numbers = self.names.numbers(name_hash(name.as_str()));
        first_named(self.tables.as_slice(), name.as_str(), numbers)
    }

    /// What the catalog keeps of a table.
    pub(crate) fn table(&self, table: u32) -> &CatalogTable
        requires { table < length self.now }
        ensures value { slice_get self.now table ≡ Some result.now }
        ensures narrow { length result.now.form.schema ≤ column_limit }
    {
        &self.tables[table as usize]
    }

    /// The columns of a table.
    pub fn schema(&self, table: u32) -> &Schema
        requires { table < length self.now }
        ensures { option_map (λ t. t.form.schema) (slice_get self.now table) ≡ Some result.now }
    {
        &self.table(table).form.schema
    }

    /// The folder of a table's data files.
    pub fn location(&self, table: u32) -> &Text
        requires { table < length self.now }
        ensures { option_map (λ t. t.location) (slice_get self.now table) ≡ Some result.now }
    {
        &self.table(table).location
    }
}
