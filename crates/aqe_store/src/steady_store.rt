//! A store in memory that never fails.

ghost use Rattle.std.specs.Prelude.{◌≡◌, ◌++◌, Some, None, Err, length, take, min, IsOk, IfOk, OnOk};
ghost use Rattle.aqe_store.specs.Files.{IsFolder, IsListing};
ghost use Rattle.aqe_store.specs.Causes.{HasCauses};
ghost use Rattle.aqe_store.specs.Told.{advanced};
ghost use Rattle.aqe_store.specs.Shelf.{open_on, left_on};

use crate::name::{Files, Names};
use crate::shelf::Shelf;
use crate::store::{Store, StoreFail};
use std::alloc::Global;

/// Files in memory whose store never fails: its count of faults is 0.
#[derive(Drop)]
pub struct SteadyStore {
    shelf: Shelf,
}

impl SteadyStore {
    /// A store of these files, with none open. Of files with the same path the first alone counts.
    pub fn new(_alloc: Global, files: Files) -> SteadyStore
        ensures files { result.shelf.files ≡ files }
        ensures closed { open_on result.shelf ≡ None }
        ensures misses { result.shelf.misses ≡ 0 }
    {
        SteadyStore {
            shelf: Shelf::new(files),
        }
    }
}

impl Store for SteadyStore {
    ghost files = { λ s. Some s.shelf.files };

    ghost opened = { λ s. open_on s.shelf };

    ghost faults = { λ s. 0 };

    ghost misses = { λ s. s.shelf.misses };

    fn list(&mut self, alloc: Global, folder: &str) -> Result<Names, StoreFail>
        ensures keeps { self.new.shelf.files ≡ self.old.shelf.files }
        ensures names { IfOk result (λ names. IsListing self.old.shelf.files folder.now names) }
        ensures opened { open_on self.new.shelf ≡ open_on self.old.shelf }
        ensures there { OnOk result (IsFolder self.old.shelf.files folder.now) }
        ensures missing { result ≡ Err StoreFail.Missing
            → ¬ (IsFolder self.old.shelf.files folder.now) }
        ensures causes { HasCauses 0 0 self.old.shelf.misses self.new.shelf.misses result }
        ensures as_before { result ≡ Err StoreFail.Memory → self.new ≡ self.old }
    {
        self.shelf.list(alloc, folder)
    }

    fn begin_file(&mut self, alloc: Global, path: &str) -> Result<(), StoreFail> {
        self.shelf.begin_file(alloc, path)
    }

    fn take(&mut self, piece: &mut [u8]) -> Result<usize, StoreFail>
        ensures steady { IsOk result }
        ensures files { self.new.shelf.files ≡ self.old.shelf.files }
        ensures fills { IfOk result (λ n. n ≡ min (length piece.new) (length (left_on self.old.shelf))) }
        ensures moves { IfOk result
            (λ n. open_on self.new.shelf ≡ advanced n (open_on self.old.shelf)) }
        ensures bytes { IfOk result
            (λ n. left_on self.old.shelf ≡ take n piece.new ++ left_on self.new.shelf) }
        ensures misses { self.new.shelf.misses ≡ self.old.shelf.misses }
    {
        Ok(self.shelf.take(piece))
    }
}
