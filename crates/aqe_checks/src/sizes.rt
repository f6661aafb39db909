//! What is decided by sizes: the way of a join, groups of partitions, local reads, and what is skewed.

ghost use Rattle.std.specs.Prelude.{◌≤◌, ◌<◌, ◌^◌, length};
ghost use Rattle.std.specs.List.{sum};

use aqe_base::{JoinKind, Side};
use aqe_coalesce::{cuts, target};
use aqe_join_switch::{
    JoinChoice, JoinRule, SideSizes, SizeSource, choose, fits_broadcast, many_empty, prefers_hash,
};
use aqe_local_read::local_rects;
use aqe_skew::{SkewRule, is_skewed, median, split_target};
use std::alloc::Global;
use std::test::Fail;

/// A rule with both thresholds at a size, and the greatest partition that is hashed.
fn rule(threshold: i64, local_map: u128) -> JoinRule {
    JoinRule {
        first_threshold: threshold,
        adaptive_threshold: threshold,
        ratio_thousandths: 200,
        local_map,
        advisory: 10,
    }
}

/// A side with two partitions of 5 bytes in a stage.
fn side() -> SideSizes<'static> {
    SideSizes {
        source: SizeSource::Shuffle,
        total: 10,
        parts: &[5, 5],
    }
}

/// Whether the right side, and the way of a join of two such sides, are as wanted.
fn is_way(kind: JoinKind, rule: &JoinRule, fits: bool, hashed: bool, way: JoinChoice) -> bool {
    fits_broadcast(kind, Side::Right, side(), rule) == fits
        && prefers_hash(kind, Side::Right, side(), rule) == hashed
        && choose(kind, Some(side()), Some(side()), rule) == way
}

#[test]
fn ways_of_joins_follow_sizes(rt: HostRuntime) -> Result<(), Fail> {
    assert!(rt; many_empty(&[10, 0, 0, 0, 0, 0], 200));
    assert!(rt; !many_empty(&[10, 0, 0, 0, 0], 200));
    assert!(rt; !many_empty(&[0, 0], 1000));
    let right = JoinChoice::ShuffledHash(Side::Right);
    let left = JoinChoice::ShuffledHash(Side::Left);
    for (kind, threshold, local_map, fits, hashed, way) in [
        (JoinKind::Inner, -1, 10, false, true, right),
        (JoinKind::RightOuter, -1, 10, false, false, left),
        (
            JoinKind::FullOuter,
            10,
            10,
            false,
            false,
            JoinChoice::SortMerge,
        ),
        (JoinKind::Inner, 9, 9, false, false, JoinChoice::SortMerge),
        (
            JoinKind::Inner,
            10,
            10,
            true,
            true,
            JoinChoice::Broadcast(Side::Right),
        ),
        (
            JoinKind::RightOuter,
            10,
            10,
            false,
            false,
            JoinChoice::Broadcast(Side::Left),
        ),
    ] {
        assert!(rt; is_way(kind, &rule(threshold, local_map), fits, hashed, way));
    }
    Ok(())
}

/// The groups of partitions as a text.
fn groups_text(alloc: Global, sizes: &[u128], target: u128) -> Result<String, Fail>
    requires count { length sizes.now < 2 ^ 32 }
    requires total { sum sizes.now < 2 ^ 110 }
{
    let mut text = String::new(alloc);
    for (start, end) in cuts(alloc, sizes, target)?.slice() {
        let group = format!(in alloc; "{start}-{end};")?;
        text.push_str(group.as_str())?;
    }
    Ok(text)
}

/// The rectangles of a local read as a text.
fn local_text(alloc: Global, maps: u32, reducers: u32, wanted: u32) -> Result<String, Fail>
    requires maps { 1 ≤ maps }
    requires reducers { 1 ≤ reducers }
    requires wanted { 1 ≤ wanted }
{
    let mut text = String::new(alloc);
    for rect in local_rects(alloc, maps, reducers, wanted)?.slice() {
        let one = format!(in alloc; "{}-{}:{}-{};", rect.m0, rect.m1, rect.r0, rect.r1)?;
        text.push_str(one.as_str())?;
    }
    Ok(text)
}

#[test]
fn partitions_are_read_in_groups_or_runs(rt: HostRuntime) -> Result<(), Fail> {
    let alloc = rt.alloc();
    assert_eq!(rt; target(100, 1, 67_108_864, 1_048_576), 1_048_576);
    assert_eq!(rt;
        groups_text(alloc, &[10, 20, 30, 40], 50)?.as_str(),
        "0-2;2-3;3-4;"
    );
    assert_eq!(rt; groups_text(alloc, &[50, 0, 1], 50)?.as_str(), "0-2;2-3;");
    assert_eq!(rt;
        local_text(alloc, 2, 5, 5)?.as_str(),
        "0-1:0-3;0-1:3-5;1-2:0-3;1-2:3-5;"
    );
    assert_eq!(rt; local_text(alloc, 5, 2, 2)?.as_str(), "0-3:0-2;3-5:0-2;");
    Ok(())
}

#[test]
fn large_partitions_are_skewed(rt: HostRuntime) -> Result<(), Fail> {
    let alloc = rt.alloc();
    let sizes = [100, 100, 100, 2000];
    let rule = SkewRule {
        factor_thousandths: 5000,
        threshold: 256,
        advisory: 64,
    };
    assert_eq!(rt; median(alloc, &sizes)?, 100);
    assert_eq!(rt; split_target(alloc, &sizes, &rule)?, 100);
    assert!(rt; is_skewed(2000, 100, &rule));
    assert!(rt; !is_skewed(100, 100, &rule));
    let rule = SkewRule {
        factor_thousandths: 5000,
        threshold: 2000,
        advisory: 64,
    };
    assert!(rt; !is_skewed(2000, 100, &rule));
    Ok(())
}
