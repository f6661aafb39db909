//! The records of the queries of a run.

ghost use Rattle.std.specs.Prelude.{◌≡◌, ◌∷◌, ◌++◌, [], OnOk, OnErr};

use crate::record::QueryRecord;
use aqe_base::{Listing, Memory};
use std::alloc::Global;
use std::marker::Model;

/// The records of the queries of a run, which contracts see as a list.
#[derive(Drop)]
pub struct Journal {
    records: Listing<QueryRecord>,
}

impl Model for Journal {
    ghost use Rattle.std.specs.Prelude.{List};
    ghost use Rattle.std.specs.Coded.{codes};
    ghost use Rattle.aqe_journal.specs.declared.record.QueryRecord.{QueryRecord as RecordData};
    ghost use Rattle.aqe_journal.specs.contracts.record.QueryRecord as record_contract;

    ghost Value = { List RecordData };

    ghost coded = { Prim.hlevel (codes, record_contract.the_row.coded) };

    ghost view = { λ j. j.records };
}

impl Journal {
    /// The journal without records. It takes no memory until the first `push`.
    pub fn new(alloc: Global) -> Journal
        ensures { result ≡ [] }
    {
        Journal {
            records: Listing::new(alloc),
        }
    }

    /// Appends a record.
    pub fn push(&mut self, entry: QueryRecord) -> Result<(), Memory>
        ensures pushed { OnOk result (self.new ≡ self.old ++ entry ∷ []) }
        ensures memory { OnErr result (self.new ≡ self.old) }
    {
        self.records.push(entry)
    }

    /// The records in the order of their queries.
    pub fn records(&self) -> &[QueryRecord]
        ensures { result.now ≡ self.now }
    {
        self.records.slice()
    }
}
