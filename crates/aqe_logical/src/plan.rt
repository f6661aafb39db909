//! The tree of a logical plan.

ghost use Rattle.std.specs.Prelude.{◌≡◌, IfOk};

use aqe_base::{JoinKind, Listing, Memory, StageId};
use aqe_boxes::boxed_pair;
use aqe_expr::Expr;
use aqe_values::{Schema, SortWay};
use sqlite_items::Boxed;
use std::alloc::Global;

/// Expressions in order.
pub type Exprs = Listing<Expr>;

/// Sort keys, the first of which decides first.
pub type SortKeys = Listing<SortKey>;

/// Aggregate calls in the order of their columns.
pub type AggCalls = Listing<AggCall>;

/// A sort key.
#[derive(Drop)]
pub struct SortKey {
    /// What is compared.
    pub expr: Expr,
    /// How it is ordered.
    pub way: SortWay,
}

/// An aggregate call. `count(*)` counts a literal that is not NULL.
#[derive(Drop)]
pub struct AggCall {
    /// The function.
    pub fun: AggFun,
    /// Its argument.
    pub arg: Expr,
}

/// The aggregate functions. Each leaves out the rows at which its argument is NULL.
#[derive(Clone, Copy, Debug, PartialEq, Eq, Drop)]
pub enum AggFun {
    /// How many rows, as a BIGINT that wraps.
    Count,
    /// The sum, as a BIGINT that wraps; NULL over no row.
    Sum,
    /// The least value; NULL over no row.
    Min,
    /// The greatest value; NULL over no row.
    Max,
}

/// Where the rows of a stage stand.
#[derive(Drop)]
pub enum Placement {
    /// Nothing is known.
    Any,
    /// In one part.
    Single,
    /// Each in the part that the hash of these expressions gives.
    Hash(Exprs),
    /// Each in the part of its range of these keys; later parts have later keys.
    Range(SortKeys),
    /// All of them, for every reader.
    Broadcast,
}

/// What a query asks for.
///
/// Only planning again, once stages are done, makes `Empty`, `Held`, `HeldPartial` and `Sampled`.
#[cycle(logical)]
#[derive(Drop)]
pub enum Logical {
    /// The one row without values.
    OneRow,
    /// The rows of a table, which is named by its number.
    Scan {
        table: u32,
        schema: Schema,
    },
    /// The rows for which the condition holds.
    Filter {
        cond: Expr,
        child: Boxed<Logical>,
    },
    /// Each row replaced by the values of expressions over it.
    Project {
        items: Exprs,
        schema: Schema,
        child: Boxed<Logical>,
    },
    /// A join; its condition is over a left row followed by a right row.
    Join {
        kind: JoinKind,
        cond: Expr,
        left: Boxed<Logical>,
        right: Boxed<Logical>,
    },
    /// A row for each group of rows with equal keys: the keys, then the calls.
    Aggregate {
        keys: Exprs,
        calls: AggCalls,
        schema: Schema,
        child: Boxed<Logical>,
    },
    /// The rows of both sides.
    Union {
        left: Boxed<Logical>,
        right: Boxed<Logical>,
    },
    /// The rows in the order of the keys.
    Sort {
        keys: SortKeys,
        child: Boxed<Logical>,
    },
    /// The rows without the first `skip`, and of these the first `count` or all.
    Limit {
        count: Option<u64>,
        skip: u64,
        child: Boxed<Logical>,
    },
    /// No row.
    Empty {
        schema: Schema,
    },
    /// The rows that a stage holds.
    Held {
        stage: StageId,
        place: Placement,
        schema: Schema,
    },
    /// The groups whose partial rows a stage holds.
    HeldPartial {
        stage: StageId,
        calls: AggCalls,
        schema: Schema,
    },
    /// Its child, of whose rows a stage holds a sample.
    Sampled {
        stage: StageId,
        child: Boxed<Logical>,
    },
}

impl Logical {
    /// The rows of `child` for which the condition holds.
    pub fn filter(alloc: Global, cond: Expr, child: Logical) -> Result<Logical, Memory>
        ensures { IfOk result (λ p. p ≡ Logical.Filter cond child) }
    {
        let child = Boxed::new(alloc, child)?;
        Ok(Logical::Filter { cond, child })
    }

    /// Each row of `child` replaced by the values of the items.
    pub fn project(
        alloc: Global,
        items: Exprs,
        schema: Schema,
        child: Logical,
    ) -> Result<Logical, Memory>
        ensures { IfOk result (λ p. p ≡ Logical.Project items schema child) }
    {
        let child = Boxed::new(alloc, child)?;
        Ok(Logical::Project {
            items,
            schema,
            child,
        })
    }

    /// The join of two sides.
    pub fn join(
        alloc: Global,
        kind: JoinKind,
        cond: Expr,
        left: Logical,
        right: Logical,
    ) -> Result<Logical, Memory>
        ensures { IfOk result (λ p. p ≡ Logical.Join kind cond left right) }
    {
        let (left, right) = boxed_pair(alloc, left, right)?;
        Ok(Logical::Join {
            kind,
            cond,
            left,
            right,
        })
    }

    /// The groups of the rows of `child`.
    pub fn aggregate(
        alloc: Global,
        keys: Exprs,
        calls: AggCalls,
        schema: Schema,
        child: Logical,
    ) -> Result<Logical, Memory>
        ensures { IfOk result (λ p. p ≡ Logical.Aggregate keys calls schema child) }
    {
        let child = Boxed::new(alloc, child)?;
        Ok(Logical::Aggregate {
            keys,
            calls,
            schema,
            child,
        })
    }

    /// The rows of both sides.
    pub fn union(alloc: Global, left: Logical, right: Logical) -> Result<Logical, Memory>
        ensures { IfOk result (λ p. p ≡ Logical.Union left right) }
    {
        let (left, right) = boxed_pair(alloc, left, right)?;
        Ok(Logical::Union { left, right })
    }

    /// The rows of `child` in the order of the keys.
    pub fn sort(alloc: Global, keys: SortKeys, child: Logical) -> Result<Logical, Memory>
        ensures { IfOk result (λ p. p ≡ Logical.Sort keys child) }
    {
        let child = Boxed::new(alloc, child)?;
        Ok(Logical::Sort { keys, child })
    }

    /// The rows of `child` without the first `skip`, and of these the first `count` or all.
    pub fn limit(
        alloc: Global,
        count: Option<u64>,
        skip: u64,
        child: Logical,
    ) -> Result<Logical, Memory>
        ensures { IfOk result (λ p. p ≡ Logical.Limit count skip child) }
    {
        let child = Boxed::new(alloc, child)?;
        Ok(Logical::Limit { count, skip, child })
    }

    /// The rows of `child`, of which the stage holds a sample.
    pub fn sampled(alloc: Global, stage: StageId, child: Logical) -> Result<Logical, Memory>
        ensures { IfOk result (λ p. p ≡ Logical.Sampled stage child) }
    {
        let child = Boxed::new(alloc, child)?;
        Ok(Logical::Sampled { stage, child })
    }
}
