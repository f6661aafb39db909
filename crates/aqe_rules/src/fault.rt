//! What a query is refused for.

use aqe_base::AnalysisKind;
use aqe_values::Text;
use std::alloc::{AllocError, AllocFailed};

/// The first check that fails, or want of memory.
#[derive(Debug, Drop)]
pub enum AnalysisFault {
    /// A check of names, types or grouping.
    Refused {
        /// The check that fails.
        kind: AnalysisKind,
        /// The name that the check is about; empty where it is about none.
        name: Text,
    },
    /// A plan has more than 256 operators.
    TooManyOperators,
    /// A node of a plan has more than 256 columns.
    TooManyColumns,
    /// An allocation failed.
    Memory,
}

impl From<aqe_base::Memory> for AnalysisFault {
    ghost use Rattle.std.specs.Prelude.{◌≡◌};
    ghost use Rattle.aqe_rules.specs.declared.fault.AnalysisFault.TheVariants.{Memory};

    ghost from_gives = { λ _ e. e ≡ Memory };

    fn from(_error: aqe_base::Memory) -> AnalysisFault {
        AnalysisFault::Memory
    }
}

impl From<aqe_values::Memory> for AnalysisFault {
    ghost use Rattle.std.specs.Prelude.{◌≡◌};
    ghost use Rattle.aqe_rules.specs.declared.fault.AnalysisFault.TheVariants.{Memory};

    ghost from_gives = { λ _ e. e ≡ Memory };

    fn from(_error: aqe_values::Memory) -> AnalysisFault {
        AnalysisFault::Memory
    }
}

impl From<AllocError> for AnalysisFault {
    ghost use Rattle.std.specs.Prelude.{◌≡◌};
    ghost use Rattle.aqe_rules.specs.declared.fault.AnalysisFault.TheVariants.{Memory};

    ghost from_gives = { λ _ e. e ≡ Memory };

    fn from(_error: AllocError) -> AnalysisFault {
        AnalysisFault::Memory
    }
}

impl<T: Drop> From<AllocFailed<T>> for AnalysisFault {
    ghost use Rattle.std.specs.Prelude.{◌≡◌};
    ghost use Rattle.aqe_rules.specs.declared.fault.AnalysisFault.TheVariants.{Memory};

    ghost from_gives = { λ _ e. e ≡ Memory };

    fn from(_error: AllocFailed<T>) -> AnalysisFault {
        AnalysisFault::Memory
    }
}
