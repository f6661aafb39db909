//! A stage that can be made of a plan.

ghost use Rattle.std.specs.Prelude.{◌≡◌};

use aqe_base::{Listing, Side};
use aqe_physical::{Plan, StageKind};

/// A way down a plan: to the left or to the right at each node. An only child stands at the left.
pub type Sides = Listing<Side>;

/// Stages that can be made, in the order in which they are.
pub type Makings = Listing<Making>;

/// A stage that can be made of a plan: its kind and body, and where the exchange stands that becomes its read.
#[derive(Drop)]
pub struct Making {
    /// The way down to the exchange; to the plan itself for a result.
    pub(crate) place: Sides,
    /// What the stage makes of its rows.
    pub(crate) kind: StageKind,
    /// The plan of its rows.
    pub(crate) body: Plan,
}

impl Making {
    /// What the stage makes of its rows.
    pub fn kind(&self) -> &StageKind
        ensures { result.now ≡ self.now.kind }
    {
        &self.kind
    }

    /// The plan of its rows. It has no exchange.
    pub fn body(&self) -> &Plan
        ensures { result.now ≡ self.now.body }
    {
        &self.body
    }
}
