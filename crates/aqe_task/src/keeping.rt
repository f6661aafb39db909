//! What a stage keeps of a part.

ghost use Rattle.std.specs.Prelude.{◌≡◌, ◌∷◌, [], IfOk};
ghost use Rattle.aqe_logical.specs.Order.{key_of};
ghost use Rattle.aqe_stages.specs.Places.{sample_of};
ghost use Rattle.aqe_stages.specs.Runnable.{NarrowKeys};
ghost use Rattle.aqe_task.specs.Pieces.{AreCells, CanKeepRows};

use crate::sending::send_rows;
use crate::steps::ROW_LIMIT;
use aqe_base::Memory;
use aqe_blocks::{MapOutput, Outputs};
use aqe_exchange::spread_single;
use aqe_logical::SortKeys;
use aqe_physical::StageKind;
use aqe_ranges::sample;
use aqe_values::Rows;
use std::alloc::Global;

/// One cell: the sample of the keys of a part.
fn sampled(alloc: Global, keys: &SortKeys, rows: Rows) -> Result<MapOutput, Memory>
    requires { NarrowKeys (key_of keys.now) rows }
    ensures { IfOk result (λ cells. cells ≡ sample_of keys.now rows ∷ []) }
{
    // There is no row whose key could have so many values.
    if keys.len() > ROW_LIMIT {
        return spread_single(alloc, Rows::new(alloc));
    }
    let sampled = sample(alloc, &rows, keys)?;
    spread_single(alloc, sampled)
}

/// The cells that a kind of stage keeps of the rows of a part. The rows move into them, but for a sample.
pub(crate) fn keep_rows(
    alloc: Global,
    kind: &StageKind,
    rows: Rows,
    outputs: &Outputs,
) -> Result<MapOutput, Memory>
    requires { CanKeepRows kind.now rows }
    ensures { IfOk result (AreCells outputs.now kind.now rows) }
{
    match kind {
        StageKind::Shuffle(to) => send_rows(alloc, to, rows, outputs),
        StageKind::Broadcast => spread_single(alloc, rows),
        StageKind::Sample(keys) => sampled(alloc, keys, rows),
        StageKind::Result => spread_single(alloc, rows),
    }
}
