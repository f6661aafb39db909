//! The table of settings: for each key its text, its kind with its range, and its default.

ghost use Rattle.std.specs.Prelude.{◌≡◌, map};
ghost use Rattle.aqe_settings.specs.Table.{row_in, rows};

use crate::{Entry, Kind, SettingKey, Value};

static TABLE: [Entry; 18] = [
    Entry {
        key: SettingKey::Enabled,
        text: "spark.sql.adaptive.enabled",
        kind: Kind::Flag,
        default: Value::Flag(true),
    },
    Entry {
        key: SettingKey::ShufflePartitions,
        text: "spark.sql.shuffle.partitions",
        kind: Kind::Count {
            least: 1,
            most: 10_000,
        },
        default: Value::Number(200),
    },
    Entry {
        key: SettingKey::Advisory,
        text: "spark.sql.adaptive.advisoryPartitionSizeInBytes",
        kind: Kind::Size { least: 1 },
        default: Value::Number(67_108_864),
    },
    Entry {
        key: SettingKey::Coalesce,
        text: "spark.sql.adaptive.coalescePartitions.enabled",
        kind: Kind::Flag,
        default: Value::Flag(true),
    },
    Entry {
        key: SettingKey::ParallelismFirst,
        text: "spark.sql.adaptive.coalescePartitions.parallelismFirst",
        kind: Kind::Flag,
        default: Value::Flag(true),
    },
    Entry {
        key: SettingKey::MinPartition,
        text: "spark.sql.adaptive.coalescePartitions.minPartitionSize",
        kind: Kind::Size { least: 1 },
        default: Value::Number(1_048_576),
    },
    Entry {
        key: SettingKey::InitialPartitions,
        text: "spark.sql.adaptive.coalescePartitions.initialPartitionNum",
        kind: Kind::Count {
            least: 1,
            most: 10_000,
        },
        default: Value::Unset,
    },
    Entry {
        key: SettingKey::Skew,
        text: "spark.sql.adaptive.skewJoin.enabled",
        kind: Kind::Flag,
        default: Value::Flag(true),
    },
    Entry {
        key: SettingKey::SkewFactor,
        text: "spark.sql.adaptive.skewJoin.skewedPartitionFactor",
        kind: Kind::Decimal {
            most: 1_000_000_000,
        },
        default: Value::Number(5_000),
    },
    Entry {
        key: SettingKey::SkewThreshold,
        text: "spark.sql.adaptive.skewJoin.skewedPartitionThresholdInBytes",
        kind: Kind::Size { least: 0 },
        default: Value::Number(268_435_456),
    },
    Entry {
        key: SettingKey::LocalReads,
        text: "spark.sql.adaptive.localShuffleReader.enabled",
        kind: Kind::Flag,
        default: Value::Flag(true),
    },
    Entry {
        key: SettingKey::LocalMap,
        text: "spark.sql.adaptive.maxShuffledHashJoinLocalMapThreshold",
        kind: Kind::Size { least: 0 },
        default: Value::Number(0),
    },
    Entry {
        key: SettingKey::FirstThreshold,
        text: "spark.sql.autoBroadcastJoinThreshold",
        kind: Kind::Threshold,
        default: Value::Threshold(10_485_760),
    },
    Entry {
        key: SettingKey::AdaptiveThreshold,
        text: "spark.sql.adaptive.autoBroadcastJoinThreshold",
        kind: Kind::Threshold,
        default: Value::Unset,
    },
    Entry {
        key: SettingKey::Ratio,
        text: "spark.sql.adaptive.nonEmptyPartitionRatioForBroadcastJoin",
        kind: Kind::Decimal { most: 1_000 },
        default: Value::Number(200),
    },
    Entry {
        key: SettingKey::Parallelism,
        text: "spark.default.parallelism",
        kind: Kind::Count {
            least: 1,
            most: 10_000,
        },
        default: Value::Number(8),
    },
    Entry {
        key: SettingKey::MaxFailures,
        text: "spark.task.maxFailures",
        kind: Kind::Count {
            least: 1,
            most: 1_000_000,
        },
        default: Value::Number(4),
    },
    Entry {
        key: SettingKey::MaxAttempts,
        text: "spark.stage.maxConsecutiveAttempts",
        kind: Kind::Count {
            least: 1,
            most: 1_000_000,
        },
        default: Value::Number(4),
    },
];

/// The rows of the table, in the order of `SettingKey`, so that each key has the one row of its place.
pub fn entries() -> &'static [Entry]
    ensures { map row_in result.now ≡ rows }
{
    &TABLE
}
