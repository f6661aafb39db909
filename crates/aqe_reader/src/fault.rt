//! Why a reader gives no tree.

ghost use Rattle.std.specs.Prelude.{◌≡◌};
ghost use Rattle.aqe_reader.specs.declared.fault.ReadFault.TheVariants.{Memory};

use aqe_trees::Terminal;
use std::alloc::{AllocError, AllocFailed};

/// Why terminals were not read.
#[derive(Clone, Copy, Debug, PartialEq, Eq, Drop)]
pub enum ReadFault {
    /// The terminals begin with no sentence of the rule.
    Refused {
        /// How many terminals were left at the first with which no sentence goes on, for a message.
        left: usize,
    },
    /// Memory ran out.
    Memory,
}

impl ReadFault {
    /// No sentence goes on with the first of these terminals, or they are wanting.
    pub fn at(terminals: &[Terminal]) -> ReadFault {
        ReadFault::Refused {
            left: terminals.len(),
        }
    }

    /// No sentence goes on with the terminal directly before these.
    pub fn before(terminals: &[Terminal]) -> ReadFault {
        ReadFault::Refused {
            left: terminals.len() + 1,
        }
    }
}

impl From<AllocError> for ReadFault {
    ghost from_gives = { λ _ e. e ≡ Memory };

    fn from(_error: AllocError) -> ReadFault {
        ReadFault::Memory
    }
}

impl<T: Drop> From<AllocFailed<T>> for ReadFault {
    ghost from_gives = { λ _ e. e ≡ Memory };

    fn from(_error: AllocFailed<T>) -> ReadFault {
        ReadFault::Memory
    }
}

impl From<aqe_base::Memory> for ReadFault {
    ghost from_gives = { λ _ e. e ≡ Memory };

    fn from(_error: aqe_base::Memory) -> ReadFault {
        ReadFault::Memory
    }
}

impl From<aqe_values::Memory> for ReadFault {
    ghost from_gives = { λ _ e. e ≡ Memory };

    fn from(_error: aqe_values::Memory) -> ReadFault {
        ReadFault::Memory
    }
}
