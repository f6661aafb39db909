//! The rule of skew, and the lists that it makes.

use aqe_base::{Listing, Rect};

/// The settings that the reading of skewed partitions depends on. Sizes are in bytes.
#[derive(Clone, Copy, Debug, PartialEq, Eq, Drop)]
pub struct SkewRule {
    /// How many times the median a skewed partition's size is above, in thousandths.
    pub factor_thousandths: u64,
    /// What a skewed partition's size is above.
    pub threshold: u128,
    /// The least size that parts of a skewed partition are cut to.
    pub advisory: u128,
}

/// The maps at which the parts of a partition begin, in order.
pub type Starts = Listing<u32>;

/// Pairs of rectangles, one of the left side of a join and one of the right.
pub type Pairs = Listing<(Rect, Rect)>;
