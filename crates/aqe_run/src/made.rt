//! What a run has made so far.

ghost use Rattle.std.specs.Prelude.{◌≡◌};
ghost use Rattle.aqe_course.specs.Course.{nothing};
ghost use Rattle.aqe_run.specs.Steps.{state_of};

use aqe_settings::Settings;
use aqe_tables::{Catalog, Tables};
use std::alloc::Global;

/// The tables that were created, those of them that are loaded, the settings in force, and how many queries were answered.
#[derive(Drop)]
pub(crate) struct Made {
    pub(crate) catalog: Catalog,
    pub(crate) tables: Tables,
    /// The settings in force; no statement that is carried out so far changes them.
    pub(crate) settings: Settings,
    /// The number of the next query.
    pub(crate) answered: u32,
}

impl Made {
    /// Nothing, with the default of each setting.
    pub(crate) fn new(alloc: Global) -> Made
        ensures { state_of result ≡ nothing }
    {
        Made {
            catalog: Catalog::new(alloc),
            tables: Tables::new(alloc),
            settings: Settings::defaults(),
            answered: 0,
        }
    }
}
