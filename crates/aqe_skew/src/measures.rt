//! What is measured of partitions: their median, which are skewed, and the size that these are cut to.

ghost use Rattle.std.specs.Prelude.{◌+◌, ◌<◌, ◌≡◌, ◌≤◌, ◌^◌, IfOk, cond, filter, length, not, sum};
ghost use Rattle.aqe_skew.specs.Skewed.{average, is_skewed, median, middle, split_target};

use crate::SkewRule;
use aqe_base::Memory;
use std::alloc::Global;

/// The middle of sizes in rising order; of an even number of them half the sum of the middle two.
#[tactic(auto, using(crate::proofs::Ascending::item_le))]
fn middle(sorted: &[u128]) -> u128
    requires some { 1 ≤ length sorted.now }
    requires total { sum sorted.now < 2 ^ 100 }
    ensures { result ≡ middle sorted.now }
{
    let half = sorted.len() / 2;
    if sorted.len() % 2 == 1 {
        sorted[half]
    } else {
        (sorted[half - 1] + sorted[half]) / 2
    }
}

/// The median of sizes, 1 at least. It copies the sizes once and sorts the copy.
#[tactic(auto, using(crate::proofs::Ascending::sorted_is_rising, crate::proofs::Ascending::same_total, crate::proofs::Ascending::same_length))]
pub fn median(alloc: Global, sizes: &[u128]) -> Result<u128, Memory>
    requires some { 1 ≤ length sizes.now }
    requires total { sum sizes.now < 2 ^ 100 }
    ensures { IfOk result (λ size. size ≡ median sizes.now) }
{
    let mut sorted = Vec::from_slice(alloc, sizes)?;
    sorted.sort()?;
    Ok(middle(sorted.as_slice()).max(1))
}

/// Whether a partition is skewed: its size is above the rule's factor times the median, and above the rule's threshold.
pub fn is_skewed(size: u128, median: u128, rule: &SkewRule) -> bool
    requires { size < 2 ^ 100 }
    ensures { result ≡ is_skewed size median rule.now }
{
    u128::from(rule.factor_thousandths).saturating_mul(median) < 1000 * size
        && rule.threshold < size
}

/// The sizes of a walk that are not skewed: their sum, and how many there are.
#[derive(Clone, Copy)]
struct EvenSizes {
    total: u128,
    count: u128,
}

/// What was walked, with one size more.
fn with_size(walked: EvenSizes, size: u128, median: u128, rule: &SkewRule) -> EvenSizes
    requires size { size < 2 ^ 100 }
    requires total { walked.total < 2 ^ 100 }
    requires count { walked.count < 2 ^ 64 }
    ensures total { result.total ≡ walked.total + cond (is_skewed size median rule.now) 0 size }
    ensures count { result.count ≡ walked.count + cond (is_skewed size median rule.now) 0 1 }
{
    if is_skewed(size, median, rule) {
        walked
    } else {
        EvenSizes {
            total: walked.total + size,
            count: walked.count + 1,
        }
    }
}

/// The average, rounded down, of the sizes that are not skewed; 0 where all are.
fn even_average(sizes: &[u128], median: u128, rule: &SkewRule) -> u128
    requires count { length sizes.now < 2 ^ 32 }
    requires total { sum sizes.now < 2 ^ 100 }
    ensures { result ≡ average (filter (λ size. not (is_skewed size median rule.now)) sizes.now) }
{
    let mut even = EvenSizes { total: 0, count: 0 };
    'sizes: for size in sizes {
        even = with_size(even, *size, median, rule);
    }
    if even.count == 0 {
        0
    } else {
        even.total / even.count
    }
}

/// The size that skewed partitions are cut to: the average of the others, or the advisory size where that is larger or all are skewed.
pub fn split_target(alloc: Global, sizes: &[u128], rule: &SkewRule) -> Result<u128, Memory>
    requires count { length sizes.now < 2 ^ 32 }
    requires total { sum sizes.now < 2 ^ 100 }
    ensures { IfOk result (λ target. target ≡ split_target sizes.now rule.now) }
{
    if sizes.is_empty() {
        return Ok(rule.advisory);
    }
    let median = median(alloc, sizes)?;
    Ok(even_average(sizes, median, rule).max(rule.advisory))
}
