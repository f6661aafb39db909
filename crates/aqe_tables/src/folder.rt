//! The data files of a table's folder.

ghost use Rattle.std.specs.Prelude.{◌≡◌, ◌≤◌, ◌<◌, length, filter, string_bytes, IfOk, IfErr, OnOk, MatchResult};
ghost use Rattle.std.specs.Cmp.Lexicographic.{slice_cmp};
ghost use Rattle.std.specs.List.Sorted.{IsPermutation, IsSorted};
ghost use Rattle.std.specs.Ordering.{nat_cmp};
ghost use Rattle.aqe_store.specs.Files.{IsFolder};
ghost use Rattle.aqe_store.specs.Told.{WhereTold};
ghost use Rattle.aqe_tables.specs.Folder.{AreDataNames, is_data_name as is_data_name_text, path_of};
ghost use Rattle.aqe_tables.specs.Load.{files_limit};
ghost use Rattle.aqe_tables.specs.Reading.{NotListed};
ghost use Rattle.aqe_tables.specs.Steps.{IsStoreStep};
ghost use Rattle.aqe_tables.specs.declared.fault.LoadFault.TheVariants as fault;

use crate::catalog::CatalogTable;
use crate::fault::LoadFault;
use aqe_base::Memory;
use aqe_store::{Names, Store, StoreFail};
use std::alloc::Global;

/// The most data files of a table.
const FILES_LIMIT: usize = 1000;

fn is_data_name(name: &str) -> bool
    ensures { result ≡ is_data_name_text name.now }
{
    match name.as_bytes().first() {
        Some(byte) => *byte != b'_' && *byte != b'.',
        None => true,
    }
}

/// The path of a file of a folder.
pub(crate) fn path_in(alloc: Global, folder: &str, name: &str) -> Result<String, Memory>
    ensures { IfOk result (λ path. string_bytes path ≡ path_of folder.now name.now) }
{
    let Ok(mut path) = String::from_str(alloc, folder) else {
        return Err(Memory);
    };
    if path.push('/').is_err() || path.push_str(name).is_err() {
        return Err(Memory);
    }
    Ok(path)
}

/// The names that data files have, in byte order.
fn sorted_data_names(names: Names) -> Result<Names, Memory>
    ensures kept { IfOk result (λ data_names.
        IsPermutation (filter is_data_name_text names) data_names) }
    ensures rising { IfOk result (λ data_names. IsSorted (slice_cmp nat_cmp) data_names) }
{
    let mut names = names.into_vec();
    names.retain(|name| is_data_name(name.as_str()));
    match names.sort_by(|a, b| a.as_str().cmp(b.as_str())) {
        Ok(()) => Ok(Names::from_vec(names)),
        Err(_) => Err(Memory),
    }
}

/// The names, if there are not too many.
fn few_names(names: Names) -> Result<Names, LoadFault>
    ensures { MatchResult result
        (λ few. (few ≡ names) × (length names ≤ files_limit))
        (λ why. (why ≡ fault.TooManyFiles) × (files_limit < length names)) }
{
    if names.len() > FILES_LIMIT {
        return Err(LoadFault::TooManyFiles);
    }
    Ok(names)
}

/// The names of the data files of a table's folder, in byte order.
pub(crate) fn data_names<S: Store>(
    alloc: Global,
    store: &mut S,
    table: &CatalogTable,
) -> Result<Names, LoadFault>
    ensures names { IfOk result (λ names. WhereTold (S.files store.old)
        (λ files. AreDataNames files table.now.location names)) }
    ensures few { IfOk result (λ names. length names ≤ files_limit) }
    ensures there { OnOk result (WhereTold (S.files store.old)
        (λ files. IsFolder files table.now.location)) }
    ensures refused { IfErr result (λ why. WhereTold (S.files store.old)
        (λ files. NotListed files table.now why)) }
    ensures step { IsStoreStep fault.ReadFault fault.Missing S.files S.faults S.misses store.old store.new result }
{
    let names = match store.list(alloc, table.location.as_str()) {
        Ok(names) => names,
        Err(StoreFail::Failed) => return Err(LoadFault::ReadFault),
        Err(StoreFail::Missing) => return Err(LoadFault::Missing),
        Err(StoreFail::Memory) => return Err(LoadFault::Memory),
    };
    let sorted = sorted_data_names(names)?;
    let few = few_names(sorted)?;
    Ok(few)
}
