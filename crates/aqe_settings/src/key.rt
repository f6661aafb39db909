//! The names of settings in the program.

/// A setting, in the order of the table. What each decides stands at the field of `Settings`.
#[derive(Clone, Copy, Debug, PartialEq, Eq, Drop)]
pub enum SettingKey {
    /// The field `enabled`.
    Enabled,
    /// The field `shuffle_partitions`.
    ShufflePartitions,
    /// The field `advisory`.
    Advisory,
    /// The field `coalesce`.
    Coalesce,
    /// The field `parallelism_first`.
    ParallelismFirst,
    /// The field `min_partition`.
    MinPartition,
    /// The field `initial_partitions`.
    InitialPartitions,
    /// The field `skew`.
    Skew,
    /// The field `skew_factor_thousandths`.
    SkewFactor,
    /// The field `skew_threshold`.
    SkewThreshold,
    /// The field `local_reads`.
    LocalReads,
    /// The field `local_map`.
    LocalMap,
    /// The field `first_threshold`.
    FirstThreshold,
    /// The field `adaptive_threshold`.
    AdaptiveThreshold,
    /// The field `ratio_thousandths`.
    Ratio,
    /// The field `parallelism`.
    Parallelism,
    /// The field `max_failures`.
    MaxFailures,
    /// The field `max_attempts`.
    MaxAttempts,
}
