//! The rows of a data file.
#![tactic(auto)]

mod field;
mod form;
mod records;

pub use form::FileForm;
pub use records::{FileFail, read_rows};
