//! Physical plans: how the rows of a query are made, part by part, and where they are exchanged.
#![tactic(auto)]

mod copying;
mod counting;
mod plan;
mod sizes;
mod target;

pub use copying::copy;
pub use counting::{count_shuffles, parts};
pub use plan::{Joining, Plan};
pub use sizes::{Estimate, Estimates, HeldSizes, StageSize, StageSizes};
pub use target::{JoinWay, StageKind, Target, copy_kind};
