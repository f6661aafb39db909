//! The estimates of the tables of a query.

ghost use Rattle.std.specs.Prelude.{◌≡◌, ◌<◌, All, IfOk, length, slice_set};
ghost use Rattle.aqe_logical.specs.Nodes.{scans as scans_of};
ghost use Rattle.aqe_tables.specs.Loaded.{table_at};
ghost use Rattle.aqe_estimates.specs.Estimates.{Filled, HasFiles, estimate_in, none_scanned};
ghost use Rattle.aqe_estimates.specs.Estimates as spec;

use aqe_base::Memory;
use aqe_logical::{Logical, scans};
use aqe_physical::{Estimate, Estimates};
use aqe_tables::Tables;
use std::alloc::Global;

/// The number behind the greatest table number.
fn reach(scanned: &[u32]) -> usize
    ensures { result ≡ spec.reach scanned.now }
{
    let mut end = 0;
    let mut left = scanned;
    'scanned: while let Some((table, rest)) = left.split_first() {
        end = end.max(*table as usize + 1);
        left = rest;
    }
    end
}

/// So many estimates of tables that are not scanned.
fn none_known(alloc: Global, count: usize) -> Result<Vec<Estimate>, Memory>
    ensures { IfOk result (λ known. known.items ≡ none_scanned count) }
{
    match vec![in alloc; Estimate { bytes: 0, files: 1 }; count] {
        Ok(known) => Ok(known),
        Err(_) => Err(Memory),
    }
}

/// The estimate of a loaded table.
fn estimate_of(tables: &Tables, table: u32) -> Estimate
    requires { HasFiles tables.now table }
    ensures { result ≡ estimate_in (table_at tables.now table) }
{
    Estimate {
        bytes: tables.bytes(table),
        files: tables.files(table),
    }
}

/// Puts the estimate of a table in its place.
fn put(known: &mut Vec<Estimate>, table: u32, estimate: Estimate)
    requires { table < length known.old.items }
    ensures { known.new.items ≡ slice_set known.old.items table estimate }
{
    known[table as usize] = estimate;
}

/// Puts the estimates of the tables that are scanned in their places.
fn fill(known: &mut Vec<Estimate>, tables: &Tables, scanned: &[u32])
    requires loaded { All (HasFiles tables.now) scanned.now }
    requires reached { All (λ table. table < length known.old.items) scanned.now }
    ensures { Filled tables.now scanned.now known.old.items known.new.items }
{
    let mut left = scanned;
    'scanned: while let Some((table, rest)) = left.split_first() {
        put(known, *table, estimate_of(tables, *table));
        left = rest;
    }
}

/// What planning knows of the tables of a query before it reads them: of each table that its plan scans the bytes and the
/// number of its files, by table number up to the greatest of them. A table that it does not scan has 0 bytes and one file.
pub fn estimates_of(alloc: Global, query: &Logical, tables: &Tables) -> Result<Estimates, Memory>
    requires { All (HasFiles tables.now) (scans_of query.now) }
    ensures { IfOk result (λ estimates. estimates ≡ spec.estimates_of tables.now query.now) }
{
    let scanned = scans(alloc, query)?;
    let mut known = none_known(alloc, reach(scanned.as_slice()))?;
    fill(&mut known, tables, scanned.as_slice());
    Ok(Estimates::from_vec(known))
}
