//! Where an exchange sends rows, how a join is carried out, and what a stage makes of its rows.

ghost use Rattle.std.specs.Prelude.{◌≡◌, IfOk};

use aqe_base::{Memory, Side, StageId};
use aqe_logical::{Exprs, SortKeys, copy_exprs, copy_sort_keys};
use std::alloc::Global;

/// Where an exchange sends each row.
#[derive(Drop)]
pub enum Target {
    /// To the one of `n` parts that the hash of the keys names.
    Hash {
        keys: Exprs,
        n: u32,
    },
    /// To the one of `n` parts whose range of keys the row is in. The bounds of the ranges come from the samples that a
    /// stage holds; where none is named yet, from the rows themselves.
    Range {
        keys: SortKeys,
        n: u32,
        sample: Option<StageId>,
    },
    /// To one part.
    Single,
    /// To one part, which each task of the reader reads.
    Broadcast,
}

/// How a join is carried out. A side that is named is the one that is built: kept whole, and looked up row by row.
#[derive(Clone, Copy, Debug, PartialEq, Eq, Drop)]
pub enum JoinWay {
    /// Both sides are sorted by their keys, part by part.
    SortMerge,
    /// One side of each part is built.
    ShuffledHash(Side),
    /// One side is built whole, for every part of the other.
    Broadcast(Side),
    /// Each row against each, in one part.
    NestedLoop,
}

/// What a stage makes of the rows of its body's parts.
#[derive(Drop)]
pub enum StageKind {
    /// Sends each row to its cell.
    Shuffle(Target),
    /// Keeps each part for every reader.
    Broadcast,
    /// Keeps of each part a sample of its keys.
    Sample(SortKeys),
    /// Keeps each part as the result of the query.
    Result,
}

impl Target {
    /// A target equal to this one.
    pub fn copy(&self, alloc: Global) -> Result<Target, Memory>
        ensures { IfOk result (λ t. t ≡ self.now) }
    {
        match self {
            Target::Hash { keys, n } => {
                let keys = copy_exprs(alloc, keys)?;
                Ok(Target::Hash { keys, n: *n })
            }
            Target::Range { keys, n, sample } => {
                let keys = copy_sort_keys(alloc, keys)?;
                Ok(Target::Range {
                    keys,
                    n: *n,
                    sample: *sample,
                })
            }
            Target::Single => Ok(Target::Single),
            Target::Broadcast => Ok(Target::Broadcast),
        }
    }
}

/// A kind of stage equal to this one.
pub fn copy_kind(alloc: Global, kind: &StageKind) -> Result<StageKind, Memory>
    ensures { IfOk result (λ k. k ≡ kind.now) }
{
    match kind {
        StageKind::Shuffle(target) => {
            let target = target.copy(alloc)?;
            Ok(StageKind::Shuffle(target))
        }
        StageKind::Broadcast => Ok(StageKind::Broadcast),
        StageKind::Sample(keys) => {
            let keys = copy_sort_keys(alloc, keys)?;
            Ok(StageKind::Sample(keys))
        }
        StageKind::Result => Ok(StageKind::Result),
    }
}
