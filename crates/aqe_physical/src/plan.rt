//! The tree of a physical plan.

ghost use Rattle.std.specs.Prelude.{◌≡◌, IfOk};
ghost use Rattle.aqe_physical.specs.Forms.{join_of};

use crate::{JoinWay, Target};
use aqe_base::{JoinKind, Memory, Rects, StageId};
use aqe_boxes::boxed_pair;
use aqe_expr::Expr;
use aqe_join_rows::JoinKeys;
use aqe_logical::{AggCalls, Exprs, SortKeys};
use sqlite_items::Boxed;
use std::alloc::Global;

/// How rows are made, part by part.
#[cycle(plan)]
#[derive(Drop)]
pub enum Plan {
    /// The one row without values, in one part.
    OneRow,
    /// The rows of a table, a part for each of its files.
    Scan {
        table: u32,
        files: u32,
    },
    /// No row, in so many parts.
    Nothing {
        parts: u32,
        width: u32,
    },
    /// Rows that a stage of so many maps and reducers holds, a part for each rectangle of its cells.
    Read {
        stage: StageId,
        maps: u32,
        reducers: u32,
        rects: Rects,
    },
    /// All rows that a stage holds, in one part.
    ReadBroadcast {
        stage: StageId,
    },
    /// The rows of each part for which the condition holds.
    Filter {
        cond: Expr,
        child: Boxed<Plan>,
    },
    /// Each row replaced by the values of expressions over it.
    Project {
        items: Exprs,
        child: Boxed<Plan>,
    },
    /// The rows of all parts, each sent to its part.
    Exchange {
        to: Target,
        child: Boxed<Plan>,
    },
    /// The join of two sides, part by part or of one side with the whole of the other.
    Join {
        way: JoinWay,
        kind: JoinKind,
        keys: JoinKeys,
        left_width: u32,
        right_width: u32,
        left: Boxed<Plan>,
        right: Boxed<Plan>,
    },
    /// The partial rows of the groups of each part.
    PartialAgg {
        keys: Exprs,
        calls: AggCalls,
        child: Boxed<Plan>,
    },
    /// The groups of each part of partial rows, whose first columns are so many keys.
    FinalAgg {
        keys: u32,
        calls: AggCalls,
        child: Boxed<Plan>,
    },
    /// The rows of each part in the order of the keys.
    Sort {
        keys: SortKeys,
        child: Boxed<Plan>,
    },
    /// The first rows of each part, at most `count`.
    LocalLimit {
        count: u64,
        child: Boxed<Plan>,
    },
    /// The rows of each part without the first `skip`, and of these the first `count` or all.
    GlobalLimit {
        count: Option<u64>,
        skip: u64,
        child: Boxed<Plan>,
    },
    /// The parts of the left side, then those of the right side.
    Union {
        left: Boxed<Plan>,
        right: Boxed<Plan>,
    },
}

/// What a join is besides its two sides.
#[derive(Drop)]
pub struct Joining {
    /// How it is carried out.
    pub way: JoinWay,
    /// Which rows it gives.
    pub kind: JoinKind,
    /// What two rows have to meet.
    pub keys: JoinKeys,
    /// How many values the rows of the left side have.
    pub left_width: u32,
    /// How many values the rows of the right side have.
    pub right_width: u32,
}

impl Plan {
    /// The rows of each part of `child` for which the condition holds.
    pub fn filter(alloc: Global, cond: Expr, child: Plan) -> Result<Plan, Memory>
        ensures { IfOk result (λ p. p ≡ Plan.Filter cond child) }
    {
        let child = Boxed::new(alloc, child)?;
        Ok(Plan::Filter { cond, child })
    }

    /// Each row of `child` replaced by the values of the items.
    pub fn project(alloc: Global, items: Exprs, child: Plan) -> Result<Plan, Memory>
        ensures { IfOk result (λ p. p ≡ Plan.Project items child) }
    {
        let child = Boxed::new(alloc, child)?;
        Ok(Plan::Project { items, child })
    }

    /// The rows of `child`, each sent to its part.
    pub fn exchange(alloc: Global, to: Target, child: Plan) -> Result<Plan, Memory>
        ensures { IfOk result (λ p. p ≡ Plan.Exchange to child) }
    {
        let child = Boxed::new(alloc, child)?;
        Ok(Plan::Exchange { to, child })
    }

    /// The join of two sides.
    pub fn join(alloc: Global, joining: Joining, left: Plan, right: Plan) -> Result<Plan, Memory>
        ensures { IfOk result (λ p. p ≡ join_of joining left right) }
    {
        let (left, right) = boxed_pair(alloc, left, right)?;
        Ok(Plan::Join {
            way: joining.way,
            kind: joining.kind,
            keys: joining.keys,
            left_width: joining.left_width,
            right_width: joining.right_width,
            left,
            right,
        })
    }

    /// The partial rows of the groups of each part of `child`.
    pub fn partial(alloc: Global, keys: Exprs, calls: AggCalls, child: Plan) -> Result<Plan, Memory>
        ensures { IfOk result (λ p. p ≡ Plan.PartialAgg keys calls child) }
    {
        let child = Boxed::new(alloc, child)?;
        Ok(Plan::PartialAgg { keys, calls, child })
    }

    /// The groups of each part of the partial rows of `child`, whose first columns are so many keys.
    pub fn last(alloc: Global, keys: u32, calls: AggCalls, child: Plan) -> Result<Plan, Memory>
        ensures { IfOk result (λ p. p ≡ Plan.FinalAgg keys calls child) }
    {
        let child = Boxed::new(alloc, child)?;
        Ok(Plan::FinalAgg { keys, calls, child })
    }

    /// The rows of each part of `child` in the order of the keys.
    pub fn sort(alloc: Global, keys: SortKeys, child: Plan) -> Result<Plan, Memory>
        ensures { IfOk result (λ p. p ≡ Plan.Sort keys child) }
    {
        let child = Boxed::new(alloc, child)?;
        Ok(Plan::Sort { keys, child })
    }

    /// The first rows of each part of `child`, at most `count`.
    pub fn local_limit(alloc: Global, count: u64, child: Plan) -> Result<Plan, Memory>
        ensures { IfOk result (λ p. p ≡ Plan.LocalLimit count child) }
    {
        let child = Boxed::new(alloc, child)?;
        Ok(Plan::LocalLimit { count, child })
    }

    /// The rows of each part of `child` without the first `skip`, and of these the first `count` or all.
    pub fn global_limit(
        alloc: Global,
        count: Option<u64>,
        skip: u64,
        child: Plan,
    ) -> Result<Plan, Memory>
        ensures { IfOk result (λ p. p ≡ Plan.GlobalLimit count skip child) }
    {
        let child = Boxed::new(alloc, child)?;
        Ok(Plan::GlobalLimit { count, skip, child })
    }

    /// The parts of the left side, then those of the right side.
    pub fn union(alloc: Global, left: Plan, right: Plan) -> Result<Plan, Memory>
        ensures { IfOk result (λ p. p ≡ Plan.Union left right) }
    {
        let (left, right) = boxed_pair(alloc, left, right)?;
        Ok(Plan::Union { left, right })
    }
}
