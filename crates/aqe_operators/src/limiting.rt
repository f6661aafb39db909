//! The rows that a limit keeps.

ghost use Rattle.std.specs.Prelude.{◌≡◌, ◌-◌, drop, take, length, min};
ghost use Rattle.aqe_logical.specs.Answers.{at_most_rows};
ghost use Rattle.aqe_operators.specs.Lent.{lent_rows};

use aqe_values::{Row, Rows};

/// The rows behind the first `skip`, and of these the first `count` or all. They move, and the others are let go.
pub fn limit_rows(rows: Rows, count: Option<u64>, skip: u64) -> Rows
    ensures { result ≡ at_most_rows count (drop skip rows) }
{
    let mut kept = rows.into_vec();
    let gone = at_most(skip, kept.len());
    kept.drain(..gone);
    if let Some(count) = count {
        let end = at_most(count, kept.len());
        kept.truncate(end);
    }
    Rows::from_vec(kept)
}

/// The lent rows behind the first `skip`, and of these the first `count` or all. The pieces are narrowed, and no row
/// is copied.
pub fn limit_lent<'a>(pieces: Vec<&'a [Row]>, count: Option<u64>, skip: u64) -> Vec<&'a [Row]>
    ensures { lent_rows result.items ≡ at_most_rows count (drop skip (lent_rows pieces.entry.items)) }
{
    let rest = skip_lent(pieces, skip);
    match count {
        Some(count) => take_lent(rest, count),
        None => rest,
    }
}

/// The number, or the length where it is shorter.
fn at_most(number: u64, length: usize) -> usize
    ensures { result ≡ min number length }
{
    number.min(length as u64) as usize
}

/// The rows of a piece behind so many, which are then fewer by those of the piece.
fn behind<'a>(piece: &'a [Row], skip: &mut u64) -> &'a [Row]
    ensures kept { result.now ≡ drop skip.old piece.now }
    ensures left { skip.new ≡ skip.old - length piece.now }
{
    let (gone, kept) = piece.split_at(at_most(*skip, piece.len()));
    *skip -= gone.len() as u64;
    kept
}

/// The first rows of a piece, at most so many, which are then fewer by those of the piece.
fn in_front<'a>(piece: &'a [Row], count: &mut u64) -> &'a [Row]
    ensures kept { result.now ≡ take count.old piece.now }
    ensures left { count.new ≡ count.old - length piece.now }
{
    let (kept, _) = piece.split_at(at_most(*count, piece.len()));
    *count -= kept.len() as u64;
    kept
}

fn skip_lent<'a>(pieces: Vec<&'a [Row]>, skip: u64) -> Vec<&'a [Row]>
    ensures { lent_rows result.items ≡ drop skip (lent_rows pieces.entry.items) }
{
    let mut kept = pieces;
    let mut left = skip;
    'pieces: for piece in kept.iter_mut() {
        *piece = behind(piece, &mut left);
    }
    kept
}

fn take_lent<'a>(pieces: Vec<&'a [Row]>, count: u64) -> Vec<&'a [Row]>
    ensures { lent_rows result.items ≡ take count (lent_rows pieces.entry.items) }
{
    let mut kept = pieces;
    let mut left = count;
    'pieces: for piece in kept.iter_mut() {
        *piece = in_front(piece, &mut left);
    }
    kept
}
