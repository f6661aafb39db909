//! How the data files of a table are read.

use aqe_values::Schema;

/// How a data file is cut into records and fields, and the columns that the fields go to.
#[derive(Drop)]
pub struct FileForm {
    /// The columns, of which the first takes a record's first field.
    pub schema: Schema,
    /// Whether the first record of each file is left out.
    pub header: bool,
    /// The byte between two fields.
    pub separator: u8,
}
