//! What the expressions of a SELECT are built of.

ghost use Rattle.std.specs.Prelude.{◌≡◌};
ghost use Rattle.aqe_rules.specs.Faults.{Says};
ghost use Rattle.aqe_outputs.specs.Building.{built_by};

use aqe_grouping::Groups;
use aqe_rules::{AnalysisFault, Named, Typed};
use std::alloc::Global;

/// What an expression is built of once its types are known.
#[derive(Drop)]
pub struct Building<'a> {
    /// Whether the query is grouped. In one that is not, each expression stays as it is.
    pub is_grouped: bool,
    /// The keys of the groups.
    pub keys: &'a [Typed],
    /// The columns of FROM.
    pub columns: &'a [Named],
}

impl<'a> Building<'a> {
    /// The expression as it is built, or the check that fails.
    pub fn built(&self, alloc: Global, value: Typed) -> Result<Typed, AnalysisFault>
        ensures { Says result (built_by self.now value) }
    {
        if self.is_grouped {
            let groups = Groups {
                keys: self.keys,
                columns: self.columns,
            };
            aqe_grouping::built(alloc, &groups, value)
        } else {
            Ok(value)
        }
    }
}
