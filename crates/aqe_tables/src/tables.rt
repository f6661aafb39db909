//! The tables that were loaded, by number.

ghost use Rattle.std.specs.Prelude.{◌≡◌, ◌≢◌, ◌≤◌, ◌<◌, ◌+◌, ◌^◌, ℕ, List, [], None, Some, length, slice_get, vec_len, IsOk, IsSome, IfOk, IfErr, IfSome, OnOk, OnErr};
ghost use Rattle.std.specs.Option.{is_some, IsSomeAnd};
ghost use Rattle.aqe_store.specs.Told.{WhereTold};
ghost use Rattle.aqe_tables.specs.declared.catalog.CatalogTable.{CatalogTable as TableData};
ghost use Rattle.aqe_tables.specs.declared.fault.LoadFault.TheVariants as fault;
ghost use Rattle.aqe_tables.specs.Loaded.{AreShaped, AreSmall, IsLoaded, Loads, Pads, WhereLoaded, all_bytes, table_at};
ghost use Rattle.aqe_tables.specs.Loaded.{HasLoadCause, HasNoLoadCause, HasNoOtherLoadCause, IsLoadedFrom, IsShapedBy};
ghost use Rattle.aqe_tables.specs.Steps.{IsStoreStep};

use crate::catalog::Catalog;
use crate::fault::LoadFault;
use crate::load::read_table;
use crate::loaded::Table;
use aqe_base::Memory;
use aqe_store::Store;
use aqe_values::Rows;
use std::alloc::Global;
use std::marker::Model;

/// The loaded tables, which contracts see as a list with a slot for each number.
#[derive(Drop)]
pub struct Tables {
    alloc: Global,
    slots: Vec<Option<Table>>,
    bytes: u64,
}

impl Model for Tables {
    ghost use Rattle.std.specs.Prelude.{◌≡◌, ◌≤◌, List, Option};
    ghost use Rattle.aqe_tables.specs.Load.{bytes_limit};
    ghost use Rattle.aqe_tables.specs.declared.fault.LoadFault.TheVariants as fault;
    ghost use Rattle.aqe_tables.specs.Loaded.{AreSmall, Slots, all_bytes};

    ghost Value = { Slots };

    ghost view = { λ t. t.slots.items };

    ghost invariant = { λ t. (t.bytes ≡ all_bytes t.slots.items) × (t.bytes ≤ bytes_limit)
        × AreSmall t.slots.items };
}

/// Adds empty slots until there is one at the index.
fn make_room(slots: &mut Vec<Option<Table>>, index: usize) -> Result<(), Memory>
    requires { index < 2 ^ 32 }
    ensures pads { OnOk result (Pads slots.old.items slots.new.items) }
    ensures there { OnOk result (index < vec_len slots.new) }
    ensures kept { OnErr result (slots.new.items ≡ slots.old.items) }
{
    if index < slots.len() {
        return Ok(());
    }
    match slots.resize_with(index + 1, || None) {
        Ok(()) => Ok(()),
        Err(_) => Err(Memory),
    }
}

/// Puts a table that was read into the slot of its number.
fn put(slots: &mut Vec<Option<Table>>, table: u32, loaded: Table) -> Result<(), Memory>
    requires free { table_at slots.old.items table ≡ None }
    requires few { length loaded.files ≤ 1000 }
    ensures puts { OnOk result (Loads slots.old.items slots.new.items table loaded) }
    ensures bytes { OnOk result (all_bytes slots.new.items ≡ all_bytes slots.old.items + loaded.bytes) }
    ensures small { AreSmall slots.old.items → AreSmall slots.new.items }
    ensures kept { OnErr result (slots.new.items ≡ slots.old.items) }
{
    make_room(slots, table as usize)?;
    slots[table as usize] = Some(loaded);
    Ok(())
}

impl Tables {
    /// No table is loaded. It takes no memory until the first `load`.
    pub fn new(alloc: Global) -> Tables
        ensures none { result ≡ [] }
        ensures shapes { (catalog : List TableData) → AreShaped catalog result }
    {
        Tables {
            alloc,
            slots: Vec::new(alloc),
            bytes: 0,
        }
    }

    /// The number behind the greatest table number that was loaded; 0 where none was.
    pub fn len(&self) -> usize
        ensures { result ≡ length self.now }
    {
        self.slots.len()
    }

    /// Whether the table is loaded.
    pub fn is_loaded(&self, table: u32) -> bool
        ensures { result ≡ is_some (table_at self.now table) }
    {
        match self.slots.get(table as usize) {
            Some(slot) => slot.is_some(),
            None => false,
        }
    }

    /// A loaded table.
    fn loaded(&self, table: u32) -> &Table
        requires { IsLoaded self.now table }
        ensures value { table_at self.now table ≡ Some result.now }
        ensures few { length result.now.files ≤ 1000 }
    {
        match &self.slots[table as usize] {
            Some(loaded) => loaded,
            None => unreachable!(),
        }
    }

    /// The number of files of a loaded table.
    pub fn files(&self, table: u32) -> u32
        requires { IsLoaded self.now table }
        ensures { IfSome (table_at self.now table) (λ loaded. result ≡ length loaded.files) }
    {
        self.loaded(table).files.len() as u32
    }

    /// The rows of a file of a loaded table.
    pub fn rows(&self, table: u32, file: u32) -> &Rows
        requires { IsSomeAnd (table_at self.now table) (λ loaded. file < length loaded.files) }
        ensures { IfSome (table_at self.now table)
            (λ loaded. slice_get loaded.files file ≡ Some result.now) }
    {
        &self.loaded(table).files.slice()[file as usize]
    }

    /// The bytes of all files of a loaded table.
    pub fn bytes(&self, table: u32) -> u64
        requires { IsLoaded self.now table }
        ensures { IfSome (table_at self.now table) (λ loaded. result ≡ loaded.bytes) }
    {
        self.loaded(table).bytes
    }

    /// Loads the table, unless it is loaded: reads its data files in byte order of their names.
    ///
    /// Clauses on content speak where the store tells its files. A refused load leaves all tables as
    /// they were.
    pub fn load<S: Store>(
        &mut self,
        store: &mut S,
        catalog: &Catalog,
        table: u32,
    ) -> Result<(), LoadFault>
        requires { table < length catalog.now }
        // A loaded table is not read again.
        ensures again { IsLoaded self.old table
            → IsOk result × (self.new ≡ self.old) × (store.new ≡ store.old) }

        // What success means: the table is that of the files, and all others stay.
        ensures loaded { OnOk result (IsLoaded self.new table) }
        ensures rows { OnOk result (table_at self.old table ≡ None → WhereTold (S.files store.old)
            (λ files. IsLoadedFrom files catalog.now self.old table self.new)) }
        ensures shaped { OnOk result (table_at self.old table ≡ None
            → WhereLoaded catalog.now self.new table IsShapedBy) }
        ensures shapes { AreShaped catalog.now self.old → AreShaped catalog.now self.new }
        ensures others { (n : ℕ) → n ≢ table → table_at self.new n ≡ table_at self.old n }

        // Each refusal has its cause in the files, or shows in a count of the store.
        ensures refused { IfErr result (λ why. WhereTold (S.files store.old)
            (λ files. HasLoadCause files catalog.now self.old table why)) }
        ensures step { IsStoreStep fault.ReadFault fault.Missing S.files S.faults S.misses store.old store.new result }
        ensures kept { OnErr result (self.new ≡ self.old) }

        // Where a cause holds, its refusal comes, unless a failure or want of memory came first.
        ensures sure { OnOk result (table_at self.old table ≡ None → WhereTold (S.files store.old)
            (λ files. HasNoLoadCause files catalog.now self.old table)) }
        ensures exact { IfErr result (λ why. WhereTold (S.files store.old)
            (λ files. HasNoOtherLoadCause files catalog.now self.old table why)) }
    {
        if self.is_loaded(table) {
            return Ok(());
        }
        let loaded = read_table(self.alloc, store, catalog.table(table), self.bytes)?;
        let bytes = loaded.bytes;
        put(&mut self.slots, table, loaded)?;
        self.bytes += bytes;
        Ok(())
    }
}
