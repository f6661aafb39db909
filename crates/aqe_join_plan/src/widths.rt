//! How many columns a query has.

ghost use Rattle.std.specs.Prelude.{◌≡◌, ℕ, IfOk, length};
ghost use Rattle.aqe_join_plan.specs.Widths.{shown_width};
ghost use Rattle.aqe_logical.specs.Columns.{width};

use aqe_base::{JoinKind, Memory};
use aqe_boxes::both;
use aqe_logical::{Logical, shows_right};
use aqe_values::Schema;

/// The number of columns of a schema. More than 4,294,967,295 find no memory.
fn count(schema: &Schema) -> Result<u32, Memory>
    ensures { IfOk result (λ n. n ≡ length schema.now) }
{
    match u32::try_from(schema.len()) {
        Ok(count) => Ok(count),
        Err(_) => Err(Memory),
    }
}

/// How many columns a join of two sides shows.
fn shown(
    kind: JoinKind,
    left: Result<u32, Memory>,
    right: Result<u32, Memory>,
) -> Result<u32, Memory>
    ensures { (l : ℕ) → (r : ℕ) → IfOk left (λ n. n ≡ l) → IfOk right (λ n. n ≡ r) → IfOk result (λ n. n ≡ shown_width kind l r) }
{
    let (left, right) = both(left, right)?;
    if shows_right(kind) {
        left.checked_add(right).ok_or(Memory)
    } else {
        Ok(left)
    }
}

/// The number of columns of a query's answers.
#[tactic(auto, using(crate::proofs::WidthSteps::width_steps))]
pub fn width_of(logical: &Logical) -> Result<u32, Memory>
    ensures { IfOk result (λ n. n ≡ width logical.now) }
{
    match logical {
        Logical::OneRow => Ok(0),
        Logical::Scan { schema, .. }
        | Logical::Project { schema, .. }
        | Logical::Aggregate { schema, .. }
        | Logical::Empty { schema }
        | Logical::Held { schema, .. }
        | Logical::HeldPartial { schema, .. } => count(schema),
        Logical::Filter { child, .. }
        | Logical::Sort { child, .. }
        | Logical::Limit { child, .. }
        | Logical::Sampled { child, .. } => width_of(child.get()),
        Logical::Join {
            kind,
            left,
            right,
            ..
        } => shown(*kind, width_of(left.get()), width_of(right.get())),
        Logical::Union { left, .. } => width_of(left.get()),
    }
}
