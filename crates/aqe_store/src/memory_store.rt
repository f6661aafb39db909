//! A store in memory whose chosen calls fail.

ghost use Rattle.std.specs.Prelude.{◌≡◌, ◌≤◌, ◌+◌, ◌-◌, ◌^◌, ◌↔◌, ◌++◌, Some, None, Err, IsTrue, IfOk, OnOk, OnErr, length, min, take};
ghost use Rattle.aqe_store.specs.Files.{IsHeld, IsFolder, IsListing};
ghost use Rattle.aqe_store.specs.Told.{advanced};
ghost use Rattle.aqe_store.specs.Shelf.{open_on, left_on};
ghost use Rattle.aqe_store.specs.Causes.{HasFault, HasCauses, Rose};
ghost use Rattle.aqe_store.specs.Calls.{IsFailing};

use crate::calls::{Calls, StoreCall, StoreKind};
use crate::count::raise;
use crate::name::{Files, Names};
use crate::shelf::Shelf;
use crate::store::{Store, StoreFail};
use std::alloc::Global;

/// Files in memory whose store fails at chosen calls and at no others.
///
/// The calls of each kind are counted from 1. The counts stop at 4294967295, and no later call fails.
#[derive(Drop)]
pub struct MemoryStore {
    shelf: Shelf,
    failing: Calls,
    lists: u32,
    begins: u32,
    takes: u32,
    faults: u64,
}

/// Counts a call, and tells whether it is one of those that are to fail.
fn begin_call(failing: &Calls, kind: StoreKind, calls: &mut u32) -> bool
    ensures fails { IsTrue result ↔ IsFailing failing.now kind calls.old }
    ensures counts { calls.new ≡ min (calls.old + 1) (2 ^ 32 - 1) }
{
    let Some(number) = calls.checked_add(1) else {
        return false;
    };
    *calls = number;
    failing.slice().contains(&StoreCall { kind, number })
}

impl MemoryStore {
    /// A store of these files, with none open, whose calls fail as told. Of files with the same path the
    /// first alone counts.
    pub fn new(_alloc: Global, files: Files, failing: Calls) -> MemoryStore
        ensures files { result.shelf.files ≡ files }
        ensures closed { open_on result.shelf ≡ None }
        ensures failing { result.failing ≡ failing }
        ensures uncalled { (result.lists ≡ 0) × (result.begins ≡ 0) × (result.takes ≡ 0) }
        ensures counts { (result.faults ≡ 0) × (result.shelf.misses ≡ 0) }
    {
        MemoryStore {
            shelf: Shelf::new(files),
            failing,
            lists: 0,
            begins: 0,
            takes: 0,
            faults: 0,
        }
    }

    /// Counts a failure.
    fn fail(&mut self) -> StoreFail
        ensures result { result ≡ StoreFail.Failed }
        ensures rose { Rose self.old.faults self.new.faults }
        ensures stays { self.old.faults ≤ self.new.faults }
        ensures once { self.new.faults ≤ self.old.faults + 1 }
        ensures others { self.new ≡ record self.old { faults = self.new.faults } }
    {
        raise(&mut self.faults);
        StoreFail::Failed
    }
}

impl Store for MemoryStore {
    ghost files = { λ s. Some s.shelf.files };

    ghost opened = { λ s. open_on s.shelf };

    ghost faults = { λ s. s.faults };

    ghost misses = { λ s. s.shelf.misses };

    fn list(&mut self, alloc: Global, folder: &str) -> Result<Names, StoreFail>
        ensures files { self.new.shelf.files ≡ self.old.shelf.files }
        ensures names { IfOk result (λ names. IsListing self.old.shelf.files folder.now names) }
        ensures opened { open_on self.new.shelf ≡ open_on self.old.shelf }
        ensures there { OnOk result (IsFolder self.old.shelf.files folder.now) }
        ensures missing { result ≡ Err StoreFail.Missing
            → ¬ (IsFolder self.old.shelf.files folder.now) }
        ensures causes { HasCauses self.old.faults self.new.faults
            self.old.shelf.misses self.new.shelf.misses result }
        ensures as_before { result ≡ Err StoreFail.Memory
            → self.new ≡ record self.old { lists = self.new.lists } }
        ensures fails { result ≡ Err StoreFail.Failed
            ↔ IsFailing self.old.failing StoreKind.List self.old.lists }
        ensures counted { self.new.lists ≡ min (self.old.lists + 1) (2 ^ 32 - 1) }
        ensures others { self.new ≡ record self.old
            { shelf = self.new.shelf; lists = self.new.lists; faults = self.new.faults } }
    {
        if begin_call(&self.failing, StoreKind::List, &mut self.lists) {
            return Err(self.fail());
        }
        self.shelf.list(alloc, folder)
    }

    fn begin_file(&mut self, alloc: Global, path: &str) -> Result<(), StoreFail>
        ensures files { self.new.shelf.files ≡ self.old.shelf.files }
        ensures opens { OnOk result (open_on self.new.shelf ≡ Some (path.now, 0)) }
        ensures closes { OnErr result (open_on self.new.shelf ≡ None) }
        ensures there { OnOk result (IsHeld self.old.shelf.files path.now) }
        ensures missing { result ≡ Err StoreFail.Missing
            → ¬ (IsHeld self.old.shelf.files path.now) }
        ensures causes { HasCauses self.old.faults self.new.faults
            self.old.shelf.misses self.new.shelf.misses result }
        ensures fails { result ≡ Err StoreFail.Failed
            ↔ IsFailing self.old.failing StoreKind.Begin self.old.begins }
        ensures counted { self.new.begins ≡ min (self.old.begins + 1) (2 ^ 32 - 1) }
        ensures others { self.new ≡ record self.old
            { shelf = self.new.shelf; begins = self.new.begins; faults = self.new.faults } }
    {
        if begin_call(&self.failing, StoreKind::Begin, &mut self.begins) {
            self.shelf.close();
            return Err(self.fail());
        }
        self.shelf.begin_file(alloc, path)
    }

    fn take(&mut self, piece: &mut [u8]) -> Result<usize, StoreFail>
        ensures files { self.new.shelf.files ≡ self.old.shelf.files }
        ensures fills { IfOk result (λ n. n ≡ min (length piece.new) (length (left_on self.old.shelf))) }
        ensures moves { IfOk result
            (λ n. open_on self.new.shelf ≡ advanced n (open_on self.old.shelf)) }
        ensures stays { OnErr result (self.new.shelf ≡ self.old.shelf) }
        ensures bytes { IfOk result
            (λ n. left_on self.old.shelf ≡ take n piece.new ++ left_on self.new.shelf) }
        ensures causes { HasFault self.old.faults self.new.faults
            self.old.shelf.misses self.new.shelf.misses result }
        ensures fails { result ≡ Err StoreFail.Failed
            ↔ IsFailing self.old.failing StoreKind.Take self.old.takes }
        ensures counted { self.new.takes ≡ min (self.old.takes + 1) (2 ^ 32 - 1) }
        ensures others { self.new ≡ record self.old
            { shelf = self.new.shelf; takes = self.new.takes; faults = self.new.faults } }
    {
        if begin_call(&self.failing, StoreKind::Take, &mut self.takes) {
            return Err(self.fail());
        }
        Ok(self.shelf.take(piece))
    }
}
