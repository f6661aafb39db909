//! What a stage is to the board: its kind, and what each of its tasks reads.

use aqe_base::{Listing, StageId};

/// What kind of stage it is. Only the outputs of a `Shuffle` stage can be lost.
#[derive(Clone, Copy, Debug, PartialEq, Eq, Drop)]
pub enum StageKindTag {
    /// Sends rows to cells, which later stages read.
    Shuffle,
    /// Keeps rows for every reader.
    Broadcast,
    /// Keeps a sample of the keys.
    Sample,
    /// Keeps the result.
    Result,
}

/// Maps of a stage that a task reads, from `m0` up to `m1`, without `m1` itself.
#[derive(Clone, Copy, Debug, PartialEq, Eq, Drop)]
pub struct Need {
    /// The stage.
    pub stage: StageId,
    /// The first map.
    pub m0: u32,
    /// The map behind the last one.
    pub m1: u32,
}

/// What one task reads.
pub type Needs = Listing<Need>;

/// What each task of a stage reads, in the order of its tasks.
pub type Reads = Listing<Needs>;
