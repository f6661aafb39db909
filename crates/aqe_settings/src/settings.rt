//! The settings of a run.

ghost use Rattle.std.specs.Prelude.{◌≡◌, ◌≤◌};
ghost use Rattle.aqe_settings.specs.Ranges.{InRange};
ghost use Rattle.aqe_settings.specs.Values.{default_values, partitions, values_of};

/// The settings of a run, in the order of the table.
///
/// The type does not hold the ranges that its fields name: `InRange` says that all values lie in theirs.
#[derive(Clone, Copy, Debug, PartialEq, Eq, Drop)]
pub struct Settings {
    /// Adaptive execution: whether the rest of a query is planned again after each stage.
    ///
    /// On or off. Key `spark.sql.adaptive.enabled`.
    pub enabled: bool,
    /// How many partitions an exchange has.
    ///
    /// A count, 1 to 10000. Key `spark.sql.shuffle.partitions`.
    pub shuffle_partitions: u32,
    /// The size that coalesced partitions and the parts of a skewed one aim at.
    ///
    /// Bytes, from 1. Key `spark.sql.adaptive.advisoryPartitionSizeInBytes`.
    pub advisory: u64,
    /// Whether small partitions that stand side by side are read as one.
    ///
    /// On or off. Key `spark.sql.adaptive.coalescePartitions.enabled`.
    pub coalesce: bool,
    /// Whether coalescing aims at no larger partitions than leave `parallelism` of them.
    ///
    /// On or off. Key `spark.sql.adaptive.coalescePartitions.parallelismFirst`.
    pub parallelism_first: bool,
    /// The least size that coalescing aims at, whatever the settings before it say.
    ///
    /// Bytes, from 1. Key `spark.sql.adaptive.coalescePartitions.minPartitionSize`.
    pub min_partition: u64,
    /// How many partitions an exchange has in place of `shuffle_partitions` where `enabled` and `coalesce` are on.
    ///
    /// A count, 1 to 10000, or unset. Key `spark.sql.adaptive.coalescePartitions.initialPartitionNum`.
    pub initial_partitions: Option<u32>,
    /// Whether a skewed partition of a join is taken in parts.
    ///
    /// On or off. Key `spark.sql.adaptive.skewJoin.enabled`.
    pub skew: bool,
    /// How many times the median size a partition has to pass to be skewed.
    ///
    /// Thousandths, 0 to 1000000000. Key `spark.sql.adaptive.skewJoin.skewedPartitionFactor`.
    pub skew_factor_thousandths: u64,
    /// The size that a partition has to pass as well to be skewed.
    ///
    /// Bytes, from 0. Key `spark.sql.adaptive.skewJoin.skewedPartitionThresholdInBytes`.
    pub skew_threshold: u64,
    /// Whether the other side of a broadcast join is read map by map.
    ///
    /// On or off. Key `spark.sql.adaptive.localShuffleReader.enabled`.
    pub local_reads: bool,
    /// The largest partition of a side that a join between exchanges may hash rather than sort. It counts from
    /// `advisory` up: below that no such join is hashed.
    ///
    /// Bytes, from 0. Key `spark.sql.adaptive.maxShuffledHashJoinLocalMapThreshold`.
    pub local_map: u64,
    /// The largest side, by the size of its files, that a join broadcasts.
    ///
    /// Bytes, from 0, or -1 for no side at all. Key `spark.sql.autoBroadcastJoinThreshold`.
    pub first_threshold: i64,
    /// The largest side, by the measured size of its stage, that a join broadcasts.
    ///
    /// Bytes, from 0, or -1 for no side at all; unset, `first_threshold` holds.
    /// Key `spark.sql.adaptive.autoBroadcastJoinThreshold`.
    pub adaptive_threshold: Option<i64>,
    /// The part of its partitions that has to hold something for a measured side to be broadcast.
    ///
    /// Thousandths, 0 to 1000. Key `spark.sql.adaptive.nonEmptyPartitionRatioForBroadcastJoin`.
    pub ratio_thousandths: u64,
    /// How many tasks are taken to run side by side.
    ///
    /// A count, 1 to 10000. Key `spark.default.parallelism`.
    pub parallelism: u32,
    /// The number of failures of one task at which its query is given up.
    ///
    /// A count, 1 to 1000000. Key `spark.task.maxFailures`.
    pub max_failures: u32,
    /// The number of failed fetches of a stage, with no success between them, at which its query is given up.
    ///
    /// A count, 1 to 1000000. Key `spark.stage.maxConsecutiveAttempts`.
    pub max_attempts: u32,
}

impl Settings {
    /// The settings that hold where nothing is set.
    pub fn defaults() -> Settings
        ensures of_table { values_of result ≡ default_values }
        ensures in_range { InRange (values_of result) }
    {
        Settings {
            enabled: true,
            shuffle_partitions: 200,
            advisory: 67_108_864,
            coalesce: true,
            parallelism_first: true,
            min_partition: 1_048_576,
            initial_partitions: None,
            skew: true,
            skew_factor_thousandths: 5_000,
            skew_threshold: 268_435_456,
            local_reads: true,
            local_map: 0,
            first_threshold: 10_485_760,
            adaptive_threshold: None,
            ratio_thousandths: 200,
            parallelism: 8,
            max_failures: 4,
            max_attempts: 4,
        }
    }

    /// The number of partitions of an exchange.
    pub fn exchange_partitions(&self) -> u32
        ensures number { result ≡ partitions (values_of self.now) }
        ensures in_range { InRange (values_of self.now) → 1 ≤ result × result ≤ 10000 }
    {
        match self.initial_partitions {
            Some(number) if self.enabled && self.coalesce => number,
            _ => self.shuffle_partitions,
        }
    }
}
