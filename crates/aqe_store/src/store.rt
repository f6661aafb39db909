//! The store that the engine reads files from.

ghost use Rattle.std.specs.Prelude.{◌≡◌, ◌≤◌, ℕ, List, Option, Some, None, length, IfOk, OnOk, OnErr};
ghost use Rattle.std.specs.Io.KnownBytes.{ReadConsumes};
ghost use Rattle.aqe_store.specs.declared.store.StoreFail.TheVariants.{Memory as NoMemory};
ghost use Rattle.aqe_store.specs.Files.{Entries, IsHeld, IsFolder, IsListing};
ghost use Rattle.aqe_store.specs.Told.{Open, WhereTold, KeepsFiles, advanced, left_of};
ghost use Rattle.aqe_store.specs.Causes.{HasCauses, HasFault};

use crate::name::Names;
use aqe_base::Memory;
use std::alloc::{AllocError, Global};

/// Why a store refused a call.
#[derive(Clone, Copy, Debug, PartialEq, Eq, Drop)]
pub enum StoreFail {
    /// The store failed to read, and its count of faults rose.
    Failed,
    /// The file or folder is not there, and the store's count of misses rose.
    Missing,
    /// An allocation failed.
    Memory,
}

impl From<Memory> for StoreFail {
    ghost from_gives = { λ _ fail. fail ≡ NoMemory };

    fn from(_error: Memory) -> StoreFail {
        StoreFail::Memory
    }
}

impl From<AllocError> for StoreFail {
    ghost from_gives = { λ _ fail. fail ≡ NoMemory };

    fn from(_error: AllocError) -> StoreFail {
        StoreFail::Memory
    }
}

/// A store of files, of which at most one is open.
///
/// Its two counts tell each refusal and nothing else: an answer other than `Failed` leaves the faults, and an
/// answer other than `Missing` the misses, as they are.
pub trait Store {
    /// The files, where the store tells them.
    ghost files: { Self → Option Entries };

    /// The open file, and how many of its bytes were taken.
    ghost opened: { Self → Option Open };

    /// How often the store has failed.
    ghost faults: { Self → ℕ };

    /// How often a file or folder was not there.
    ghost misses: { Self → ℕ };

    /// The names of the plain files of a folder. A file that is open stays open, and after want of memory
    /// the store is as before.
    fn list(&mut self, alloc: Global, folder: &str) -> Result<Names, StoreFail>
        ensures keeps { KeepsFiles (files self.old) (files self.new) }
        ensures names { IfOk result (λ names.
            WhereTold (files self.old) (λ told. IsListing told folder.now names)) }
        ensures opened { opened self.new ≡ opened self.old }
        ensures there { OnOk result (WhereTold (files self.old) (λ told. IsFolder told folder.now)) }
        ensures missing { result ≡ Err StoreFail.Missing
            → WhereTold (files self.old) (λ told. ¬ (IsFolder told folder.now)) }
        ensures as_before { result ≡ Err StoreFail.Memory → files self.new ≡ files self.old }
        ensures causes { HasCauses (faults self.old) (faults self.new)
            (misses self.old) (misses self.new) result };

    /// Opens a file, of which no byte is taken yet. Whatever was open is closed by the call, also where it is refused.
    fn begin_file(&mut self, alloc: Global, path: &str) -> Result<(), StoreFail>
        ensures keeps { KeepsFiles (files self.old) (files self.new) }
        ensures opens { OnOk result (opened self.new ≡ Some (path.now, 0)) }
        ensures closes { OnErr result (opened self.new ≡ None) }
        ensures there { OnOk result (WhereTold (files self.old) (λ told. IsHeld told path.now)) }
        ensures missing { result ≡ Err StoreFail.Missing
            → WhereTold (files self.old) (λ told. ¬ (IsHeld told path.now)) }
        ensures causes { HasCauses (faults self.old) (faults self.new)
            (misses self.old) (misses self.new) result };

    /// Puts the next bytes of the open file at the front of the piece, and tells how many they are.
    ///
    /// For a piece that is not empty it is 0 at the file's end and where no file is open, and nowhere else.
    fn take(&mut self, piece: &mut [u8]) -> Result<usize, StoreFail>
        ensures keeps { KeepsFiles (files self.old) (files self.new) }
        ensures bound { IfOk result (λ n. n ≤ length piece.new) }
        ensures moves { IfOk result (λ n. opened self.new ≡ advanced n (opened self.old)) }
        ensures stays { OnErr result (opened self.new ≡ opened self.old) }
        ensures closed { opened self.old ≡ None → IfOk result (λ n. n ≡ 0) }
        ensures bytes { ReadConsumes (left_of (files self.old) (opened self.old))
            (left_of (files self.new) (opened self.new)) result piece.new }
        ensures causes { HasFault (faults self.old) (faults self.new)
            (misses self.old) (misses self.new) result };
}
