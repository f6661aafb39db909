//! Lists with commas.

ghost use Rattle.std.specs.Prelude.{◌<◌, length, MatchResult};
ghost use Rattle.aqe_trees.specs.Expressions.{IsOr, IsList};
ghost use Rattle.aqe_reader.specs.Reading.{Read, Refuses, IsRefusal};
ghost use Rattle.aqe_reader.specs.Nesting.{Nests};

use crate::ReadFault;
use crate::cursor::eat;
use crate::nest::{Nest, inner};
use crate::pieces::more;
use aqe_trees::{Key, OrTree, Terminal};
use sqlite_items::{Boxed, Items};

/// `or {, or}`, read by a loop, however long it is.
pub(crate) fn list<'a, F>(
    nest: &Nest<F>,
    terminals: &'a [Terminal],
) -> Result<(Items<OrTree>, &'a [Terminal]), ReadFault>
where
    F: Fn(&'a [Terminal]) -> Result<(Boxed<OrTree>, &'a [Terminal]), ReadFault>,
    requires nests { Nests F.Fn nest.now.read nest.now.room }
    requires room { length terminals.now < nest.now.room }
    ensures { MatchResult result
        (λ x. Read IsList 9 terminals.now x.0 x.1.now)
        (λ e. IsRefusal e → Refuses IsList 9 terminals.now) }
{
    let (mut items, mut rest) = more(Items::new(nest.alloc), inner(nest, terminals))?;
    'more: while let Some(after) = eat(rest, Key::Comma) {
        (items, rest) = more(items, inner(nest, after))?;
    }
    Ok((items, rest))
}
