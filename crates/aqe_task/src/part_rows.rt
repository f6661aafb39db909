//! The rows of a part: lent in pieces, or made.

ghost use Rattle.std.specs.Prelude.{◌≡◌, ◌∷◌, ◌++◌, [], IfOk, OnOk};
ghost use Rattle.aqe_operators.specs.Lent.{lent_rows};
ghost use Rattle.aqe_probe.specs.Joinable.{rows_seen};
ghost use Rattle.aqe_task.specs.Pieces.{rows_in};

use aqe_base::Memory;
use aqe_joins::lend;
use aqe_values::{Row, Rows};
use std::alloc::Global;

/// Rows in order.
#[derive(Drop)]
pub(crate) enum PartRows<'a> {
    /// Pieces that a file of a table or the cells of a stage lend, one behind the other.
    Lent(Vec<&'a [Row]>),
    /// Rows that were made.
    Owned(Rows),
}

/// The one row without values.
pub(crate) fn one_row<'a>(alloc: Global) -> Result<PartRows<'a>, Memory>
    ensures { IfOk result (λ rows. rows_in rows ≡ [] ∷ []) }
{
    let mut rows = Rows::new(alloc);
    match rows.push(Row::new(alloc)) {
        Ok(()) => Ok(PartRows::Owned(rows)),
        Err(_) => Err(Memory),
    }
}

/// No row.
pub(crate) fn no_rows<'a>(alloc: Global) -> PartRows<'a>
    ensures { rows_in result ≡ [] }
{
    PartRows::Owned(Rows::new(alloc))
}

/// The rows as rows of one's own; those that are lent are copied.
pub(crate) fn into_rows(alloc: Global, rows: PartRows<'_>) -> Result<Rows, Memory>
    ensures { IfOk result (λ own. own ≡ rows_in rows.entry) }
{
    match rows {
        PartRows::Lent(pieces) => copied(alloc, pieces.as_slice()),
        PartRows::Owned(rows) => Ok(rows),
    }
}

/// Appends a copy of a row.
fn push_copy(alloc: Global, row: &Row, own: &mut Rows) -> Result<(), Memory>
    ensures { OnOk result (own.new ≡ own.old ++ row.now ∷ []) }
{
    match row.copy(alloc) {
        Ok(row) => push_row(row, own),
        Err(_) => Err(Memory),
    }
}

fn push_row(row: Row, own: &mut Rows) -> Result<(), Memory>
    ensures { OnOk result (own.new ≡ own.old ++ row ∷ []) }
{
    match own.push(row) {
        Ok(()) => Ok(()),
        Err(_) => Err(Memory),
    }
}

/// Appends copies of the rows.
fn push_copies(alloc: Global, rows: &[Row], own: &mut Rows) -> Result<(), Memory>
    ensures { OnOk result (own.new ≡ own.old ++ rows.now) }
{
    'rows: for row in rows {
        push_copy(alloc, row, own)?;
    }
    Ok(())
}

#[tactic(auto, using(crate::proofs::Lending::piece_more))]
fn copied(alloc: Global, pieces: &[&[Row]]) -> Result<Rows, Memory>
    ensures { IfOk result (λ own. own ≡ lent_rows pieces.now) }
{
    let mut own = Rows::new(alloc);
    'pieces: for piece in pieces {
        push_copies(alloc, piece, &mut own)?;
    }
    Ok(own)
}

/// Appends each of the rows, lent.
fn push_lent<'a>(rows: &'a [Row], lent: &mut Vec<&'a Row>) -> Result<(), Memory>
    ensures { OnOk result (rows_seen lent.new.items ≡ rows_seen lent.old.items ++ rows.now) }
{
    'rows: for row in rows {
        lent.push(row)?;
    }
    Ok(())
}

#[tactic(auto, using(crate::proofs::Lending::piece_more))]
fn lend_pieces<'a>(alloc: Global, pieces: &[&'a [Row]]) -> Result<Vec<&'a Row>, Memory>
    ensures { IfOk result (λ lent. rows_seen lent.items ≡ lent_rows pieces.now) }
{
    let mut lent = Vec::new(alloc);
    'pieces: for piece in pieces {
        push_lent(piece, &mut lent)?;
    }
    Ok(lent)
}

/// The rows, lent one by one.
pub(crate) fn lend_each<'a>(alloc: Global, rows: &'a PartRows<'a>) -> Result<Vec<&'a Row>, Memory>
    ensures { IfOk result (λ lent. rows_seen lent.items ≡ rows_in rows.now) }
{
    match rows {
        PartRows::Lent(pieces) => lend_pieces(alloc, pieces.as_slice()),
        PartRows::Owned(rows) => lend(alloc, rows.slice()),
    }
}
