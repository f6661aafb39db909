//! Why a table is not loaded.

ghost use Rattle.std.specs.Prelude.{◌≡◌};
ghost use Rattle.aqe_tables.specs.declared.fault.LoadFault.TheVariants as fault;

use aqe_base::Memory;
use aqe_store::Name;

/// Why a table is not loaded. The first three come before a file is read; then files are taken one by
/// one, each through all its checks.
#[derive(Debug, Drop)]
pub enum LoadFault {
    /// The store failed to read, and its count of faults rose.
    ReadFault,
    /// The folder is not there, and the store's count of misses rose.
    Missing,
    /// The folder has more than 1,000 data files.
    TooManyFiles,
    /// A file has more than 67,108,864 bytes.
    TooLong {
        /// The name of the file.
        file: Name,
    },
    /// The loaded tables together would have more than 134,217,728 bytes.
    TooManyBytes,
    /// A file has a quote, a backslash or a byte above `~`, or is refused by the reader of CSV.
    NotBuilt {
        /// The name of the file.
        file: Name,
    },
    /// An allocation failed.
    Memory,
}

impl From<Memory> for LoadFault {
    ghost from_gives = { λ _ e. e ≡ fault.Memory };

    fn from(_error: Memory) -> LoadFault {
        LoadFault::Memory
    }
}
