//! The number of a stage.

/// A stage of a query, numbered from 0 in the order in which stages are made.
#[derive(Clone, Copy, Debug, PartialEq, Eq, PartialOrd, Ord, Hash, Drop)]
pub struct StageId(pub u32);
