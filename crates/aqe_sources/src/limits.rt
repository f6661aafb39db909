//! The two limits of a plan: at most 256 operators, and at most 256 columns at each node.

ghost use Rattle.std.specs.Prelude.{ℕ, ◌+◌, max};
ghost use Rattle.aqe_logical.specs.Columns.{width};
ghost use Rattle.aqe_rules.specs.Limits.{most_columns, within_limits};
ghost use Rattle.aqe_rules.specs.Faults.{Says};
ghost use Rattle.aqe_sources.specs.Widths.{IsWithin, IsJoined, shown_width};

use aqe_base::JoinKind;
use aqe_logical::{Logical, shows_right};
use aqe_rules::{AnalysisFault, room_behind};

/// The most operators of a plan.
const OPERATOR_LIMIT: u32 = 256;

/// The most columns of a node.
const COLUMN_LIMIT: usize = 256;

/// A node of so many columns that shows so many.
fn node(columns: usize, shown: usize) -> Option<usize>
    ensures { IsWithin columns shown result }
{
    if columns <= COLUMN_LIMIT {
        Some(shown)
    } else {
        None
    }
}

/// A node of so many columns over a child, which shows so many.
fn over(child: Option<usize>, columns: usize, shown: usize) -> Option<usize>
    ensures { (most : ℕ) → (below : ℕ) → IsWithin most below child → IsWithin (max most columns) shown result }
{
    match child {
        Some(_) => node(columns, shown),
        None => None,
    }
}

/// A node over a child whose columns are in two parts.
fn over_two(child: Option<usize>, first: usize, second: usize, shown: usize) -> Option<usize>
    ensures { (most : ℕ) → (below : ℕ) → IsWithin most below child → IsWithin (max most (first + second)) shown result }
{
    match first.checked_add(second) {
        Some(columns) => over(child, columns, shown),
        None => None,
    }
}

/// A node of so many columns that shows those of its child.
fn keeping(child: Option<usize>, columns: usize) -> Option<usize>
    ensures { (most : ℕ) → (below : ℕ) → IsWithin most below child → IsWithin (max most columns) below result }
{
    match child {
        Some(shown) => node(columns, shown),
        None => None,
    }
}

/// A union of two sides, which shows the columns of the left one.
fn union(left: Option<usize>, right: Option<usize>) -> Option<usize>
    ensures { (l : ℕ) → (a : ℕ) → (r : ℕ) → (b : ℕ) → IsWithin l a left → IsWithin r b right → IsWithin (max l r) a result }
{
    match right {
        Some(_) => left,
        None => None,
    }
}

/// How many columns a join of two sides shows.
fn joined(kind: JoinKind, left: usize, right: usize) -> Option<usize>
    ensures { IsWithin (shown_width kind left right) (shown_width kind left right) result }
{
    if !shows_right(kind) {
        return node(left, left);
    }
    match left.checked_add(right) {
        Some(both) => node(both, both),
        None => None,
    }
}

/// A join of two sides.
fn join(kind: JoinKind, left: Option<usize>, right: Option<usize>) -> Option<usize>
    ensures { (l : ℕ) → (a : ℕ) → (r : ℕ) → (b : ℕ) → IsWithin l a left → IsWithin r b right → IsJoined kind l a r b result }
{
    match (left, right) {
        (Some(left), Some(right)) => joined(kind, left, right),
        _ => None,
    }
}

/// The width of the plan, where no node of it has more than 256 columns.
#[tactic(auto, using(crate::proofs::ColumnSteps::column_steps))]
fn width_within(plan: &Logical) -> Option<usize>
    ensures { IsWithin (most_columns plan.now) (width plan.now) result }
{
    match plan {
        Logical::OneRow => Some(0),
        Logical::Scan { schema, .. }
        | Logical::Empty { schema }
        | Logical::Held { schema, .. }
        | Logical::HeldPartial { schema, .. } => node(schema.len(), schema.len()),
        Logical::Filter { child, .. }
        | Logical::Limit { child, .. }
        | Logical::Sampled { child, .. } => width_within(child.get()),
        Logical::Project {
            items,
            schema,
            child,
        } => over(width_within(child.get()), items.len(), schema.len()),
        Logical::Join {
            kind,
            left,
            right,
            ..
        } => join(*kind, width_within(left.get()), width_within(right.get())),
        Logical::Aggregate {
            keys,
            calls,
            schema,
            child,
        } => over_two(
            width_within(child.get()),
            keys.len(),
            calls.len(),
            schema.len(),
        ),
        Logical::Union { left, right } => {
            union(width_within(left.get()), width_within(right.get()))
        }
        Logical::Sort { keys, child } => keeping(width_within(child.get()), keys.len()),
    }
}

/// The plan, where it keeps both limits. Its operators are counted before its columns.
#[tactic(auto, using(crate::proofs::ColumnSteps::limit_steps))]
pub fn within_limits(plan: Logical) -> Result<Logical, AnalysisFault>
    ensures { Says result (within_limits plan) }
{
    if room_behind(&plan, OPERATOR_LIMIT).is_none() {
        return Err(AnalysisFault::TooManyOperators);
    }
    if width_within(&plan).is_none() {
        return Err(AnalysisFault::TooManyColumns);
    }
    Ok(plan)
}
