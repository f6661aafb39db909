//! The catalog of the tables, and the tables that were loaded.
#![tactic(auto)]

mod catalog;
mod columns;
mod fault;
mod folder;
mod index;
mod laws;
mod load;
mod loaded;
mod options;
mod tables;

pub use aqe_records::FileForm;
pub use catalog::{Catalog, CatalogTable, CreateFault};
pub use fault::LoadFault;
pub use laws::files_make_one_table;
pub use loaded::Table;
pub use tables::Tables;
