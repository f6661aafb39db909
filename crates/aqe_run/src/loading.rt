//! The tables of a query, loaded in turn.

ghost use Rattle.std.specs.Prelude.{◌≡◌, ◌<◌, ◌⊎◌, ◌∷◌, ℕ, [], All, Err, length, IsTrue, IfErr, OnOk, MatchOption};
ghost use Rattle.aqe_store.specs.Told.{WhereTold};
ghost use Rattle.aqe_tables.specs.Loaded.{AreShaped, IsLoaded};
ghost use Rattle.aqe_base.specs.declared.status.Status.TheVariants as status;
ghost use Rattle.aqe_course.specs.Course.{of_load};
ghost use Rattle.aqe_run.specs.Steps.{AreMissing, IsExcuse, IsNext, IsNotNext, IsRunStep, LoadsAll, RefusesTables, is_step_end};

use aqe_base::{LimitKind, Status};
use aqe_store::Store;
use aqe_tables::{Catalog, LoadFault, Tables};
use aqe_texts::FaultPlace;

/// The status of a table that is refused; its folder or file is noted.
fn load_status(why: LoadFault, folder: &str, place: &mut FaultPlace) -> Status
    ensures { result ≡ of_load why }
{
    match why {
        LoadFault::Memory => Status::Memory,
        LoadFault::ReadFault => {
            place.note(folder);
            Status::ReadFault
        }
        LoadFault::Missing => {
            place.note(folder);
            Status::Missing
        }
        LoadFault::TooManyFiles => {
            place.note(folder);
            Status::Limit(LimitKind::Files)
        }
        LoadFault::TooManyBytes => {
            place.note(folder);
            Status::Limit(LimitKind::AllBytes)
        }
        LoadFault::TooLong { file } => {
            place.note_file(folder, file.as_str());
            Status::Limit(LimitKind::FileBytes)
        }
        LoadFault::NotBuilt { file } => {
            place.note_file(folder, file.as_str());
            Status::NotBuilt
        }
    }
}

/// Loads a table, unless it is loaded.
fn load_one<S: Store>(
    table: u32,
    catalog: &Catalog,
    tables: &mut Tables,
    store: &mut S,
    place: &mut FaultPlace,
) -> Result<(), Status>
    requires there { table < length catalog.now }
    requires shaped { AreShaped catalog.now tables.old }
    ensures loaded { OnOk result (IsLoaded tables.new table) }
    ensures shaped { AreShaped catalog.now tables.new }
    ensures stays { (n : ℕ) → IsLoaded tables.old n → IsLoaded tables.new n }
    ensures next { OnOk result (WhereTold (S.files store.old)
        (λ files. IsNext files catalog.now tables.old table tables.new)) }
    ensures refused { IfErr result (λ end. WhereTold (S.files store.old)
        (λ files. IsNotNext files catalog.now tables.old table end ⊎ IsExcuse end)) }
    ensures reads { result ≡ Err status.ReadFault → ¬ (IsLoaded tables.old table) }
    ensures named { IfErr result (λ end. IsTrue (is_step_end end)) }
    ensures step { IsRunStep S.files S.faults S.misses store.old store.new result }
{
    match tables.load(store, catalog, table) {
        Ok(()) => Ok(()),
        Err(why) => Err(load_status(why, catalog.location(table).as_str(), place)),
    }
}

/// The first number, and those behind it.
fn next(numbers: &[u32]) -> Option<(u32, &[u32])>
    ensures { MatchOption result (numbers.now ≡ []) (λ x. numbers.now ≡ x.0 ∷ x.1.now) }
{
    match numbers {
        [] => None,
        [first, rest @ ..] => Some((*first, rest)),
    }
}

/// Loads tables in turn, each unless it is loaded.
pub(crate) fn load_all<S: Store>(
    numbers: &[u32],
    catalog: &Catalog,
    tables: &mut Tables,
    store: &mut S,
    place: &mut FaultPlace,
) -> Result<(), Status>
    requires within { All (λ n. n < length catalog.now) numbers.now }
    requires shaped { AreShaped catalog.now tables.old }
    ensures loaded { OnOk result (All (λ n. IsLoaded tables.new n) numbers.now) }
    ensures shaped { AreShaped catalog.now tables.new }
    ensures all { OnOk result (LoadsAll (S.files store.old) catalog.now tables.old numbers.now tables.new) }
    ensures refused { IfErr result (RefusesTables (S.files store.old) catalog.now tables.old numbers.now) }
    ensures reads { result ≡ Err status.ReadFault → AreMissing tables.old numbers.now }
    ensures named { IfErr result (λ end. IsTrue (is_step_end end)) }
    ensures step { IsRunStep S.files S.faults S.misses store.old store.new result }
{
    let mut left = numbers;
    'tables: while let Some((table, rest)) = next(left) {
        load_one(table, catalog, tables, store, place)?;
        left = rest;
    }
    Ok(())
}
