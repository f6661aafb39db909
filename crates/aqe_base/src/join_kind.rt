//! The kinds of join, and what each side of a join may serve as.

ghost use Rattle.std.specs.Prelude.{◌≡◌};
ghost use Rattle.aqe_base.specs.Joins.{may_build, may_split};

/// Which pairs and which unmatched rows a join gives.
#[derive(Clone, Copy, Debug, PartialEq, Eq, Drop)]
pub enum JoinKind {
    /// Each pair of rows that match.
    Inner,
    /// Each pair of rows that match; written without a condition, each pair.
    Cross,
    /// As `Inner`, and each left row without a match, padded with NULLs.
    LeftOuter,
    /// As `Inner`, and each right row without a match, padded with NULLs.
    RightOuter,
    /// As `Inner`, and each row of either side without a match, padded with NULLs.
    FullOuter,
    /// Each left row with a match, once.
    LeftSemi,
    /// Each left row without a match.
    LeftAnti,
}

/// A side of a join.
#[derive(Clone, Copy, Debug, PartialEq, Eq, Drop)]
pub enum Side {
    /// The left side.
    Left,
    /// The right side.
    Right,
}

/// Whether a join of this kind may keep the whole of this side, broadcast or hashed, and look the other's rows up in it.
pub fn can_build(kind: JoinKind, side: Side) -> bool
    ensures { result ≡ may_build kind side }
{
    match kind {
        JoinKind::Inner | JoinKind::Cross => true,
        JoinKind::RightOuter => side == Side::Left,
        JoinKind::LeftOuter | JoinKind::LeftSemi | JoinKind::LeftAnti => side == Side::Right,
        JoinKind::FullOuter => false,
    }
}

/// Whether a join of this kind may take a skewed partition of this side in pieces, each against the whole of the other side.
pub fn can_split(kind: JoinKind, side: Side) -> bool
    ensures { result ≡ may_split kind side }
{
    match kind {
        JoinKind::Inner | JoinKind::Cross => true,
        JoinKind::RightOuter => side == Side::Right,
        JoinKind::LeftOuter | JoinKind::LeftSemi | JoinKind::LeftAnti => side == Side::Left,
        JoinKind::FullOuter => false,
    }
}
