//! What names mean at a place.

ghost use Rattle.std.specs.Prelude.{◌≡◌, length};
ghost use Rattle.aqe_rules.specs.Readings.{Place, column_named, column_of_item};
ghost use Rattle.aqe_rules.specs.Sources.{over};
ghost use Rattle.aqe_rules.specs.Faults.{Says};
ghost use Rattle.aqe_typing.specs.Calls.{at_calls};

use crate::calls::Call;
use aqe_rules::{AnalysisFault, Named, Typed};
use aqe_values::Text;
use std::alloc::Global;

/// What the names of a place mean, whatever aggregate calls may stand there.
pub(crate) trait Names {
    /// The columns and the aliases.
    ghost place: { Self → Place };

    /// What a name means. An alias may have these aggregate calls.
    fn column(&self, alloc: Global, name: &Text, calls: &[Call]) -> Result<Typed, AnalysisFault>
        ensures { Says result (column_named name.now (at_calls (place self.now) calls.now)) };

    /// What `table.name` means.
    fn column_of(&self, alloc: Global, table: &Text, name: &Text) -> Result<Typed, AnalysisFault>
        ensures { Says result (column_of_item table.now name.now (place self.now)) };

    /// How many columns there are.
    fn width(&self) -> usize
        ensures { result ≡ length (place self.now).columns };
}

/// A place where no alias may be used.
#[derive(Drop)]
pub(crate) struct Columns<'a> {
    pub(crate) columns: &'a [Named],
}

impl<'a> Names for Columns<'a> {
    ghost place = { λ names. over names.columns.now };

    #[tactic(auto, using(crate::proofs::AliasSteps::column_steps))]
    fn column(&self, alloc: Global, name: &Text, _calls: &[Call]) -> Result<Typed, AnalysisFault> {
        aqe_rules::column_named(alloc, name, self.columns)
    }

    fn column_of(&self, alloc: Global, table: &Text, name: &Text) -> Result<Typed, AnalysisFault> {
        aqe_rules::column_of_item(alloc, table, name, self.columns)
    }

    fn width(&self) -> usize {
        self.columns.len()
    }
}
