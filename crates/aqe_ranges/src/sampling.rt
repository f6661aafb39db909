//! Samples of the keys of rows.

ghost use Rattle.std.specs.Prelude.{◌≡◌, ◌≤◌, ◌∷◌, ◌++◌, [], length, map, IfOk, OnOk};
ghost use Rattle.aqe_logical.specs.Order.{key_of};
ghost use Rattle.aqe_places.specs.Samples as spec;
ghost use Rattle.aqe_values.specs.Bounds.{row_limit};

use crate::spreading::even_place;
use aqe_base::Memory;
use aqe_logical::SortKeys;
use aqe_sorting::key_row;
use aqe_values::{Row, Rows};
use std::alloc::Global;

/// So many keys are sampled of a part, or as many as it has rows.
const SAMPLE_SIZE: usize = 20;

/// Puts the key row of a row behind others.
fn push_key(alloc: Global, keys: &SortKeys, row: &Row, sampled: &mut Rows) -> Result<(), Memory>
    requires { length keys.now ≤ row_limit }
    ensures { OnOk result (sampled.new ≡ sampled.old ++ key_of keys.now row.now ∷ []) }
{
    let key = key_row(alloc, keys, row)?;
    match sampled.push(key) {
        Ok(()) => Ok(()),
        Err(_) => Err(Memory),
    }
}

/// The sample of the keys of a part. The keys are evaluated over the sampled rows alone.
pub fn sample(alloc: Global, rows: &Rows, keys: &SortKeys) -> Result<Rows, Memory>
    requires { length keys.now ≤ row_limit }
    ensures { IfOk result (λ sampled. sampled ≡ spec.sample (map (key_of keys.now) rows.now)) }
{
    let size = SAMPLE_SIZE.min(rows.len());
    let mut sampled = Rows::new(alloc);
    'sampled: for i in 0..size {
        let row = rows.at(even_place(i, rows.len(), size));
        push_key(alloc, keys, row, &mut sampled)?;
    }
    Ok(sampled)
}
