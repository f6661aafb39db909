//! Values that take more than one allocation: one way out for all of them.
//!
//! At each `?` every value that is alive is dropped, and the proof unfolds how a tree is dropped there. In these functions
//! the values are of a type that is not known, so nothing is unfolded, and a builder of trees has one `?` in place of several.
#![tactic(auto)]

ghost use Rattle.std.specs.Prelude.{◌≡◌, IfOk};

use sqlite_items::Boxed;
use std::alloc::{AllocError, Global};

/// Both values, where both are there; else the error of the first that is not.
pub fn both<A: Drop, B: Drop, E: Drop>(
    first: Result<A, E>,
    second: Result<B, E>,
) -> Result<(A, B), E>
    ensures first { IfOk result (λ pair. first ≡ Ok pair.0) }
    ensures second { IfOk result (λ pair. second ≡ Ok pair.1) }
{
    let first = first?;
    let second = second?;
    Ok((first, second))
}

/// Three values, where all are there; else the error of the first that is not.
pub fn all_three<A: Drop, B: Drop, C: Drop, E: Drop>(
    first: Result<A, E>,
    second: Result<B, E>,
    third: Result<C, E>,
) -> Result<(A, B, C), E>
    ensures first { IfOk result (λ all. first ≡ Ok all.0) }
    ensures second { IfOk result (λ all. second ≡ Ok all.1) }
    ensures third { IfOk result (λ all. third ≡ Ok all.2) }
{
    let first = first?;
    let second = second?;
    let third = third?;
    Ok((first, second, third))
}

/// Two values, each in a box.
pub fn boxed_pair<A: Drop, B: Drop>(
    alloc: Global,
    first: A,
    second: B,
) -> Result<(Boxed<A>, Boxed<B>), AllocError>
    ensures { IfOk result (λ pair. pair ≡ (first, second)) }
{
    let first = Boxed::new(alloc, first)?;
    let second = Boxed::new(alloc, second)?;
    Ok((first, second))
}

/// Three values, each in a box.
pub fn boxed_three<A: Drop, B: Drop, C: Drop>(
    alloc: Global,
    first: A,
    second: B,
    third: C,
) -> Result<(Boxed<A>, Boxed<B>, Boxed<C>), AllocError>
    ensures { IfOk result (λ all. all ≡ (first, second, third)) }
{
    let first = Boxed::new(alloc, first)?;
    let second = Boxed::new(alloc, second)?;
    let third = Boxed::new(alloc, third)?;
    Ok((first, second, third))
}
