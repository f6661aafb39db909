//! What was read, put together.
//!
//! At each way out of a function all trees that are alive are dropped. Here they are of types that are not known, and the
//! readers that call these functions have none alive at a way out, nor large ones in their frames.

ghost use Rattle.std.specs.Prelude.{◌≡◌, ◌∷◌, [], ◌++◌, MatchResult};
ghost use Rattle.aqe_reader.specs.Reading.{IsRefusal};

use crate::ReadFault;
use sqlite_items::{Boxed, Items};

/// The value, and what was read behind it.
pub fn beside<A: Drop, B: Drop>(value: A, read: Result<B, ReadFault>) -> Result<(A, B), ReadFault>
    ensures { MatchResult result (λ x. (x.0 ≡ value) × (read ≡ Ok x.1)) (λ e. read ≡ Err e) }
{
    match read {
        Ok(behind) => Ok((value, behind)),
        Err(fault) => Err(fault),
    }
}

/// The items and the one that was read behind them, and what is left.
#[inline(never)]
pub fn more<T: Drop, R: Drop>(
    items: Items<T>,
    next: Result<(Boxed<T>, R), ReadFault>,
) -> Result<(Items<T>, R), ReadFault>
    ensures { MatchResult result
        (λ x. (item : _) × (next ≡ Ok (item, x.1)) × (x.0 ≡ items ++ item ∷ []))
        (λ e. IsRefusal e → next ≡ Err e) }
{
    let (item, rest) = next?;
    let mut items = items;
    items.push(item.into_inner())?;
    Ok((items, rest))
}

/// The same, where an item is in no box.
#[inline(never)]
pub fn plain_more<T: Drop, R: Drop>(
    items: Items<T>,
    next: Result<(T, R), ReadFault>,
) -> Result<(Items<T>, R), ReadFault>
    ensures { MatchResult result
        (λ x. (item : _) × (next ≡ Ok (item, x.1)) × (x.0 ≡ items ++ item ∷ []))
        (λ e. IsRefusal e → next ≡ Err e) }
{
    let (item, rest) = next?;
    let mut items = items;
    items.push(item)?;
    Ok((items, rest))
}

/// The same, where something stands beside each item.
#[inline(never)]
pub fn more_by<O: Drop, T: Drop, R: Drop>(
    items: Items<(O, T)>,
    mark: O,
    next: Result<(Boxed<T>, R), ReadFault>,
) -> Result<(Items<(O, T)>, R), ReadFault>
    ensures { MatchResult result
        (λ x. (item : _) × (next ≡ Ok (item, x.1)) × (x.0 ≡ items ++ (mark, item) ∷ []))
        (λ e. IsRefusal e → next ≡ Err e) }
{
    let (item, rest) = next?;
    let mut items = items;
    items.push((mark, item.into_inner()))?;
    Ok((items, rest))
}

/// A first operand and further ones with the one that was read behind them, and what is left.
#[inline(never)]
pub fn longer<A: Drop, T: Drop, R: Drop>(
    first: A,
    items: Items<T>,
    next: Result<(Boxed<T>, R), ReadFault>,
) -> Result<(A, Items<T>, R), ReadFault>
    ensures { MatchResult result
        (λ x. (x.0 ≡ first) × (item : _) × (next ≡ Ok (item, x.2)) × (x.1 ≡ items ++ item ∷ []))
        (λ e. IsRefusal e → next ≡ Err e) }
{
    let (item, rest) = next?;
    let mut items = items;
    items.push(item.into_inner())?;
    Ok((first, items, rest))
}

/// The same, where an operator stands before the operand.
#[inline(never)]
pub fn longer_by<A: Drop, O: Drop, T: Drop, R: Drop>(
    first: A,
    items: Items<(O, T)>,
    op: O,
    next: Result<(T, R), ReadFault>,
) -> Result<(A, Items<(O, T)>, R), ReadFault>
    ensures { MatchResult result
        (λ x. (x.0 ≡ first) × (item : _) × (next ≡ Ok (item, x.2)) × (x.1 ≡ items ++ (op, item) ∷ []))
        (λ e. IsRefusal e → next ≡ Err e) }
{
    let (item, rest) = next?;
    let mut items = items;
    items.push((op, item))?;
    Ok((first, items, rest))
}
