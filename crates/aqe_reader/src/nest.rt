//! The reader of what stands within parentheses, a CASE or a list, as the rules take it.

ghost use Rattle.std.specs.Prelude.{◌<◌, length, MatchResult};
ghost use Rattle.aqe_trees.specs.Expressions.{IsOr};
ghost use Rattle.aqe_reader.specs.Reading.{Read, Refuses, IsRefusal};
ghost use Rattle.aqe_reader.specs.Nesting.{Nests};

use crate::ReadFault;
use aqe_trees::{OrTree, Terminal};
use sqlite_items::Boxed;
use std::alloc::Global;

/// What each rule is given: memory, and a reader of the expressions that stand further in.
#[derive(Drop)]
pub(crate) struct Nest<F> {
    pub alloc: Global,
    /// Fewer terminals than this are left for what stands further in.
    pub room: usize,
    pub read: F,
}

/// The expression at the front of terminals that stand further in.
pub(crate) fn inner<'a, F>(
    nest: &Nest<F>,
    terminals: &'a [Terminal],
) -> Result<(Boxed<OrTree>, &'a [Terminal]), ReadFault>
where
    F: Fn(&'a [Terminal]) -> Result<(Boxed<OrTree>, &'a [Terminal]), ReadFault>,
    requires nests { Nests F.Fn nest.now.read nest.now.room }
    requires room { length terminals.now < nest.now.room }
    ensures { MatchResult result
        (λ x. Read IsOr 14 terminals.now x.0 x.1.now)
        (λ e. IsRefusal e → Refuses IsOr 14 terminals.now) }
{
    (nest.read)(terminals)
}
