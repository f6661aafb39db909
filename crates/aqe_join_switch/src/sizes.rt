//! What is known of the sizes of a join's sides, the rule that looks at them, and what is chosen.

use aqe_base::Side;

/// Where the sizes of a side come from.
#[derive(Clone, Copy, Debug, PartialEq, Eq, Drop)]
pub enum SizeSource {
    /// From the files of the table that the side scans.
    Estimate,
    /// From the partitions of a stage that is whole.
    Shuffle,
    /// From a stage that is held as a broadcast already.
    Broadcast,
}

/// The sizes of a side in bytes.
#[derive(Clone, Copy, Debug, Drop)]
pub struct SideSizes<'a> {
    /// Where they come from.
    pub source: SizeSource,
    /// The size of the whole side.
    pub total: u128,
    /// The sizes of its partitions. Only those of `SizeSource::Shuffle` are looked at.
    pub parts: &'a [u128],
}

/// The settings that the choice depends on. Sizes are in bytes; a negative threshold is above no side.
#[derive(Clone, Copy, Debug, PartialEq, Eq, Drop)]
pub struct JoinRule {
    /// The greatest estimated total of a side that is broadcast.
    pub first_threshold: i64,
    /// The greatest measured total of a side that is broadcast.
    pub adaptive_threshold: i64,
    /// A side whose share of filled partitions is below this, in thousandths, has many empty ones.
    pub ratio_thousandths: u64,
    /// The greatest partition of a side that is hashed.
    pub local_map: u128,
    /// The size that partitions are to come to. Nothing is hashed where it is above `local_map`.
    pub advisory: u128,
}

/// The way of a join that has keys.
#[derive(Clone, Copy, Debug, PartialEq, Eq, Drop)]
pub enum JoinChoice {
    /// The side goes whole to each part of the other side.
    Broadcast(Side),
    /// Each partition of the side becomes a hash table that the other side's partition looks its rows up in.
    ShuffledHash(Side),
    /// Partitions of both sides are sorted and merged.
    SortMerge,
}
