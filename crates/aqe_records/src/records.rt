//! The records of a data file, and their rows.

ghost use Rattle.std.specs.Prelude.{◌≡◌, ◌≤◌, ◌∷◌, ◌++◌, [], length, Err, IfOk, OnOk, false, if◌then◌else◌};
ghost use Rattle.csv.specs.Reading.{error_kind};
ghost use Rattle.csv.specs.Records.{fields_of};
ghost use Rattle.aqe_values.specs.Bounds.{row_limit, text_limit};
ghost use Rattle.aqe_records.specs.FileRows.{IsRefused, file_rows, row_of as record_row};
ghost use Rattle.aqe_records.specs.Records.{AreShort, fail_of as fail_of_kind};
ghost use Rattle.aqe_records.specs.declared.records.FileFail.TheVariants as fail;

use crate::field::cell_of;
use crate::form::FileForm;
use aqe_values::{Field, Memory, Row, Rows};
use csv::{Error, ErrorKind, ReaderBuilder, StringRecord};
use std::alloc::Global;

/// Why a file gives no rows.
#[derive(Clone, Copy, Debug, PartialEq, Eq, Drop)]
pub enum FileFail {
    /// The reader of CSV refuses a record.
    Refused,
    /// An allocation failed.
    Memory,
}

impl From<Memory> for FileFail {
    ghost from_gives = { λ _ e. e ≡ fail.Memory };

    fn from(_error: Memory) -> FileFail {
        FileFail::Memory
    }
}

fn row_of(alloc: Global, columns: &[Field], entry: &StringRecord) -> Result<Row, Memory>
    requires width { length columns.now ≤ row_limit }
    requires short { AreShort (fields_of entry.now) }
    ensures { IfOk result (λ row. row ≡ record_row columns.now (fields_of entry.now)) }
{
    let mut row = Row::new(alloc);
    'columns: for (i, column) in columns.iter().enumerate() {
        let value = cell_of(alloc, column.kind, entry.get(i))?;
        row.push(value)?;
    }
    Ok(row)
}

/// Appends the row of a record, unless the record is the header that is awaited.
fn add_row(
    alloc: Global,
    columns: &[Field],
    entry: &StringRecord,
    awaited: &mut bool,
    rows: &mut Rows,
) -> Result<(), Memory>
    requires width { length columns.now ≤ row_limit }
    requires short { AreShort (fields_of entry.now) }
    ensures rows { OnOk result (rows.new ≡ (if awaited.old then rows.old
        else rows.old ++ record_row columns.now (fields_of entry.now) ∷ [])) }
    ensures read { OnOk result (awaited.new ≡ false) }
{
    if *awaited {
        *awaited = false;
        return Ok(());
    }
    let row = row_of(alloc, columns, entry)?;
    rows.push(row)
}

fn fail_of(error: &Error) -> FileFail
    ensures { result ≡ fail_of_kind (error_kind error.now) }
{
    match error.kind() {
        ErrorKind::Io(_) | ErrorKind::OutOfMemory => FileFail::Memory,
        _ => FileFail::Refused,
    }
}

/// The rows of a file's records under the form of its table, as Spark reads a file of CSV.
///
/// The records are read one after the other into the same room, and each row is made once.
pub fn read_rows(alloc: Global, form: &FileForm, bytes: &[u8]) -> Result<Rows, FileFail>
    requires width { length form.now.schema ≤ row_limit }
    requires size { length bytes.now ≤ text_limit }
    ensures rows { IfOk result (λ rows. rows ≡ file_rows form.now bytes.now) }
    ensures refused { result ≡ Err fail.Refused → IsRefused form.now.separator bytes.now }
    ensures taken { OnOk result (¬ (IsRefused form.now.separator bytes.now)) }
{
    let mut reader = ReaderBuilder::new()
        .has_headers(false)
        .flexible(true)
        .delimiter(form.separator)
        .escape(Some(b'\\'))
        .from_reader(alloc, bytes);
    let columns = form.schema.slice();
    let mut entry = StringRecord::new(alloc);
    let mut awaited = form.header;
    let mut rows = Rows::new(alloc);
    'records: for _ in 0..u64::MAX {
        match reader.read_record(&mut entry) {
            Ok(true) => add_row(alloc, columns, &entry, &mut awaited, &mut rows)?,
            Ok(false) => return Ok(rows),
            Err(error) => return Err(fail_of(&error)),
        }
    }
    Err(FileFail::Memory)
}
