//! A table that was loaded.

use aqe_base::Listing;
use aqe_values::Rows;

/// A loaded table: the rows of each of its files, and how many bytes the files have together.
#[derive(Drop)]
pub struct Table {
    /// The rows of each file, in byte order of the files' names.
    pub files: Listing<Rows>,
    /// The bytes of all files.
    pub bytes: u64,
}
