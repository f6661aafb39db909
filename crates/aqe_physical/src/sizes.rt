//! What planning knows of sizes: of tables before they are read, and of stages once they are made.

use aqe_base::{Listing, Sizes, StageId};

/// What is known of a table before it is read.
#[derive(Clone, Copy, Debug, PartialEq, Eq, Drop)]
pub struct Estimate {
    /// The bytes of its files.
    pub bytes: u64,
    /// The number of its files, at least 1.
    pub files: u32,
}

/// Estimates by the numbers of the tables.
pub type Estimates = Listing<Estimate>;

/// What is known of a stage that was made.
#[derive(Drop)]
pub struct StageSize {
    /// The stage.
    pub stage: StageId,
    /// The number of its maps.
    pub maps: u32,
    /// The number of its reducers; a broadcast or sample stage has one.
    pub reducers: u32,
    /// What it holds, once all of it was made.
    pub held: Option<HeldSizes>,
}

/// What a stage holds.
#[derive(Drop)]
pub struct HeldSizes {
    /// The bytes of its cells, those of the first map first.
    pub cells: Sizes,
    /// The number of its rows.
    pub rows: u128,
}

/// Sizes of stages, one entry for each.
pub type StageSizes = Listing<StageSize>;
