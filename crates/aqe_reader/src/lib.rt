//! The reader of expressions: from terminals to the tree that they spell, proved against the grammar in both directions.
#![tactic(auto)]

ghost use Rattle.std.specs.Prelude.{MatchResult};
ghost use Rattle.aqe_trees.specs.Expressions.{IsOr, IsList};
ghost use Rattle.aqe_reader.specs.Reading.{Read, Refuses, IsRefusal};

use aqe_trees::{OrTree, Terminal};
use chains::or;
use list::list;
use nest::Nest;
use sqlite_items::{Boxed, Items};
use std::alloc::Global;

mod boxes;
mod case;
mod chains;
pub mod cursor;
mod fault;
mod list;
mod nest;
pub mod pieces;
mod predicate;
mod primary;
mod runs;
mod words;

pub use fault::ReadFault;

/// The expression at the front of the terminals, and what stands behind it.
pub fn expression<'a>(
    alloc: Global,
    terminals: &'a [Terminal],
) -> Result<(OrTree, &'a [Terminal]), ReadFault>
    ensures { MatchResult result
        (λ x. Read IsOr 14 terminals.now x.0 x.1.now)
        (λ e. IsRefusal e → Refuses IsOr 14 terminals.now) }
{
    let (tree, rest) = boxed_expression(alloc, terminals)?;
    Ok((tree.into_inner(), rest))
}

/// The same, with the tree in a box.
pub fn boxed_expression<'a>(
    alloc: Global,
    terminals: &'a [Terminal],
) -> Result<(Boxed<OrTree>, &'a [Terminal]), ReadFault>
    ensures { MatchResult result
        (λ x. Read IsOr 14 terminals.now x.0 x.1.now)
        (λ e. IsRefusal e → Refuses IsOr 14 terminals.now) }
{
    let read = |within|
        ensures { MatchResult result
            (λ x. Read IsOr 14 within.now x.0 x.1.now)
            (λ e. IsRefusal e → Refuses IsOr 14 within.now) }
    { boxed_expression(alloc, within) };
    let nest = Nest {
        alloc,
        room: terminals.len(),
        read,
    };
    or(&nest, terminals)
}

/// The expressions with commas between them at the front of the terminals, and what stands behind them.
pub fn expressions(
    alloc: Global,
    terminals: &[Terminal],
) -> Result<(Items<OrTree>, &[Terminal]), ReadFault>
    ensures { MatchResult result
        (λ x. Read IsList 9 terminals.now x.0 x.1.now)
        (λ e. IsRefusal e → Refuses IsList 9 terminals.now) }
{
    let room = terminals.len() + 1;
    let read = |within|
        ensures { MatchResult result
            (λ x. Read IsOr 14 within.now x.0 x.1.now)
            (λ e. IsRefusal e → Refuses IsOr 14 within.now) }
    { boxed_expression(alloc, within) };
    let nest = Nest { alloc, room, read };
    list(&nest, terminals)
}
