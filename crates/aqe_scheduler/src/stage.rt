//! What the board keeps of a stage.

use crate::need::{Reads, StageKindTag};
use crate::task::Tasks;

/// What the board keeps of a stage. It has as many tasks as lists of reads.
#[derive(Drop)]
pub struct Stage {
    /// Its kind.
    pub kind: StageKindTag,
    /// Whether it is needed, by its last mark.
    pub needed: bool,
    /// The failed fetches since a task of it was last counted, up to the greatest number of 64 bits.
    pub streak: u64,
    /// What its tasks read.
    pub reads: Reads,
    /// Its tasks.
    pub tasks: Tasks,
}
