//! The files of a table read one after the other.

ghost use Rattle.std.specs.Prelude.{◌≡◌, ◌⊎◌, ◌≤◌, ◌+◌, length, Err, IfOk, IfErr, OnOk};
ghost use Rattle.std.specs.Prelude.{All, Some};
ghost use Rattle.std.specs.List.{list_all};
ghost use Rattle.aqe_values.specs.Bounds.{text_limit};
ghost use Rattle.aqe_store.specs.Files.{content_of};
ghost use Rattle.aqe_store.specs.Told.{WhereTold};
ghost use Rattle.aqe_tables.specs.Catalog.{column_limit};
ghost use Rattle.aqe_records.specs.FileRows.{file_rows};
ghost use Rattle.aqe_tables.specs.Load.{AreWide, FileCause, IsGood, IsShaped, IsTableOf, IsUnread, LoadCause, bytes_limit, files_limit, is_plain as is_plain_byte, or_one_empty as or_one_empty_file};
ghost use Rattle.aqe_tables.specs.Reading.{AreAllRead, IsRead, NotAllRead, NotHad, NotRead};
ghost use Rattle.aqe_tables.specs.Steps.{IsStoreStep};
ghost use Rattle.aqe_tables.specs.declared.fault.LoadFault.TheVariants as fault;
ghost use Rattle.aqe_records.specs.declared.records.FileFail.TheVariants as fail;

use crate::catalog::CatalogTable;
use crate::fault::LoadFault;
use crate::folder::{data_names, path_in};
use crate::loaded::Table;
use aqe_base::{Bytes, Listing, Memory};
use aqe_records::{FileFail, FileForm, read_rows};
use aqe_store::{Name, ReadBuffer, ReadFail, Store, read_with};
use aqe_values::Rows;
use std::alloc::Global;

/// The most bytes of a file.
const FILE_LIMIT: u64 = 67108864;

/// The most bytes of all loaded tables together.
const BYTES_LIMIT: u64 = 134217728;

/// A data file that was read: its rows and the number of its bytes.
#[derive(Drop)]
struct LoadedFile {
    rows: Rows,
    bytes: u64,
}

fn is_plain(bytes: &[u8]) -> bool
    ensures { result ≡ list_all is_plain_byte bytes.now }
{
    bytes
        .iter()
        .all(|byte| *byte <= b'~' && *byte != b'"' && *byte != b'\\')
}

/// The bytes of a file.
fn file_bytes<S: Store>(
    alloc: Global,
    store: &mut S,
    buffer: &mut ReadBuffer,
    path: &str,
    name: &str,
) -> Result<Bytes, LoadFault>
    ensures content { IfOk result (λ bytes. WhereTold (S.files store.old)
        (λ files. content_of files path.now ≡ Some bytes)) }
    ensures bound { IfOk result (λ bytes. length bytes ≤ text_limit) }
    ensures refused { IfErr result (λ why. WhereTold (S.files store.old)
        (λ files. NotHad files path.now name.now why)) }
    ensures step { IsStoreStep fault.ReadFault fault.Missing S.files S.faults S.misses store.old store.new result }
{
    match read_with(alloc, store, buffer, path, FILE_LIMIT) {
        Ok(bytes) => Ok(bytes),
        Err(ReadFail::Failed) => Err(LoadFault::ReadFault),
        Err(ReadFail::Missing) => Err(LoadFault::Missing),
        Err(ReadFail::Memory) => Err(LoadFault::Memory),
        Err(ReadFail::TooLong) => {
            let file = Name::copy_of(alloc, name)?;
            Err(LoadFault::TooLong { file })
        }
    }
}

/// The rows of a file's bytes, if it has plain bytes alone and the reader of CSV takes them.
fn plain_rows(alloc: Global, form: &FileForm, bytes: &[u8]) -> Result<Rows, FileFail>
    requires narrow { length form.now.schema ≤ column_limit }
    requires fits { length bytes.now ≤ text_limit }
    ensures rows { IfOk result (λ rows. rows ≡ file_rows form.now bytes.now) }
    ensures refused { result ≡ Err fail.Refused → IsUnread form.now.separator bytes.now }
    ensures taken { OnOk result (¬ (IsUnread form.now.separator bytes.now)) }
{
    if !is_plain(bytes) {
        return Err(FileFail::Refused);
    }
    read_rows(alloc, form, bytes)
}

/// The rows of the bytes of the file of this name, with so many bytes loaded before it.
fn checked_rows(
    alloc: Global,
    form: &FileForm,
    name: &Name,
    bytes: &[u8],
    before: u64,
) -> Result<Rows, LoadFault>
    requires narrow { length form.now.schema ≤ column_limit }
    requires fits { length bytes.now ≤ text_limit }
    requires room { before ≤ bytes_limit }
    ensures rows { IfOk result (λ rows. rows ≡ file_rows form.now bytes.now) }
    ensures good { OnOk result (IsGood form.now.separator before bytes.now) }
    ensures refused { IfErr result (λ why. (why ≡ fault.Memory)
        ⊎ FileCause form.now.separator before (name.now, bytes.now) why) }
{
    if bytes.len() as u64 > BYTES_LIMIT - before {
        return Err(LoadFault::TooManyBytes);
    }
    match plain_rows(alloc, form, bytes) {
        Ok(rows) => Ok(rows),
        Err(FileFail::Memory) => Err(LoadFault::Memory),
        Err(FileFail::Refused) => {
            let file = Name::copy_of(alloc, name.as_str())?;
            Err(LoadFault::NotBuilt { file })
        }
    }
}

/// Reads a data file of the table, with so many bytes loaded before it.
fn read_file<S: Store>(
    alloc: Global,
    store: &mut S,
    buffer: &mut ReadBuffer,
    table: &CatalogTable,
    name: &Name,
    before: u64,
) -> Result<LoadedFile, LoadFault>
    requires narrow { length table.now.form.schema ≤ column_limit }
    requires room { before ≤ bytes_limit }
    ensures read { IfOk result (λ file. WhereTold (S.files store.old)
        (λ files. IsRead files table.now name.now before file)) }
    ensures wide { IfOk result (λ file. AreWide (length table.now.form.schema) file.rows) }
    ensures room { IfOk result (λ file. before + file.bytes ≤ bytes_limit) }
    ensures refused { IfErr result (λ why. WhereTold (S.files store.old)
        (λ files. NotRead files table.now name.now before why)) }
    ensures step { IsStoreStep fault.ReadFault fault.Missing S.files S.faults S.misses store.old store.new result }
{
    let path = path_in(alloc, table.location.as_str(), name.as_str())?;
    let bytes = file_bytes(alloc, store, buffer, path.as_str(), name.as_str())?;
    let rows = checked_rows(alloc, &table.form, name, bytes.slice(), before)?;
    Ok(LoadedFile {
        rows,
        bytes: bytes.len() as u64,
    })
}

/// Reads the data files of these names, with so many bytes loaded before them.
fn read_files<S: Store>(
    alloc: Global,
    store: &mut S,
    buffer: &mut ReadBuffer,
    table: &CatalogTable,
    names: &[Name],
    before: u64,
) -> Result<Table, LoadFault>
    requires narrow { length table.now.form.schema ≤ column_limit }
    requires room { before ≤ bytes_limit }
    ensures read { IfOk result (λ read. WhereTold (S.files store.old)
        (λ files. AreAllRead files table.now names.now before read)) }
    ensures count { IfOk result (λ read. length read.files ≡ length names.now) }
    ensures wide { IfOk result (λ read. All (AreWide (length table.now.form.schema)) read.files) }
    ensures room { IfOk result (λ read. before + read.bytes ≤ bytes_limit) }
    ensures refused { IfErr result (λ why. WhereTold (S.files store.old)
        (λ files. NotAllRead files table.now names.now before why)) }
    ensures step { IsStoreStep fault.ReadFault fault.Missing S.files S.faults S.misses store.old store.new result }
{
    let mut files = Listing::new(alloc);
    let mut total = before;
    'files: for name in names {
        let file = read_file(alloc, store, buffer, table, name, total)?;
        total += file.bytes;
        files.push(file.rows)?;
    }
    Ok(Table {
        files,
        bytes: total - before,
    })
}

/// The files, or one empty file where there is none.
fn or_one_empty(alloc: Global, mut files: Listing<Rows>) -> Result<Listing<Rows>, Memory>
    ensures { IfOk result (λ all. all ≡ or_one_empty_file files) }
{
    if files.is_empty() {
        files.push(Rows::new(alloc))?;
    }
    Ok(files)
}

/// Reads a table whose folder and files are as the catalog says, with so many bytes loaded before.
pub(crate) fn read_table<S: Store>(
    alloc: Global,
    store: &mut S,
    table: &CatalogTable,
    before: u64,
) -> Result<Table, LoadFault>
    requires narrow { length table.now.form.schema ≤ column_limit }
    requires room { before ≤ bytes_limit }
    ensures table { IfOk result (λ loaded. WhereTold (S.files store.old)
        (λ files. IsTableOf files table.now before loaded)) }
    ensures shaped { IfOk result (λ loaded. IsShaped (length table.now.form.schema) loaded) }
    ensures room { IfOk result (λ loaded. before + loaded.bytes ≤ bytes_limit) }
    ensures refused { IfErr result (λ why. WhereTold (S.files store.old)
        (λ files. LoadCause files table.now before why)) }
    ensures step { IsStoreStep fault.ReadFault fault.Missing S.files S.faults S.misses store.old store.new result }
{
    let names = data_names(alloc, store, table)?;
    let mut buffer = ReadBuffer::new(alloc)?;
    let read = read_files(alloc, store, &mut buffer, table, names.slice(), before)?;
    let files = or_one_empty(alloc, read.files)?;
    Ok(Table {
        files,
        bytes: read.bytes,
    })
}
