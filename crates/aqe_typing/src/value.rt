//! What an expression means at its place.

ghost use Rattle.std.specs.Prelude.{◌≡◌, []};
ghost use Rattle.aqe_rules.specs.Expressions.{read, alone_of};
ghost use Rattle.aqe_rules.specs.Sources.{over};
ghost use Rattle.aqe_rules.specs.Selects.{with_aliases};
ghost use Rattle.aqe_rules.specs.Faults.{Says};
ghost use Rattle.aqe_typing.specs.Alone.{is_a_column};
ghost use Rattle.aqe_typing.specs.Places.{place_seen};

use crate::aliases::WithAliases;
use crate::column;
use crate::levels::or;
use crate::place::Place;
use aqe_rules::{AnalysisFault, Named, Typed};
use aqe_trees::{ItemTree, OrTree};
use std::alloc::Global;

/// What the expression means at the place, or the first check that it fails.
///
/// What stands under an alias is read over the columns alone, with the aggregate calls of the place. No aggregate call may
/// stand in the argument of another one.
pub fn value_at(alloc: Global, tree: &OrTree, place: &Place) -> Result<Typed, AnalysisFault>
    ensures { Says result (read tree.now (place_seen place.now)).value }
{
    let names = WithAliases {
        columns: place.columns,
        list: place.list,
    };
    or(alloc, tree, &names, place.calls)
}

/// What the expression means over the columns, or the first check that it fails.
///
/// No alias may be used there, and no aggregate call may stand.
pub fn value_over(alloc: Global, tree: &OrTree, columns: &[Named]) -> Result<Typed, AnalysisFault>
    ensures { Says result (read tree.now (over columns.now)).value }
{
    value_with_aliases(alloc, tree, columns, &[])
}

/// What the expression means where a name that no column has may be an alias of the select list.
///
/// No aggregate call may stand there.
pub fn value_with_aliases(
    alloc: Global,
    tree: &OrTree,
    columns: &[Named],
    list: &[ItemTree],
) -> Result<Typed, AnalysisFault>
    ensures { Says result (read tree.now (with_aliases columns.now list.now [])).value }
{
    let place = Place {
        columns,
        list,
        calls: &[],
    };
    value_at(alloc, tree, &place)
}

/// Whether the expression is the name of a column alone, parentheses aside.
pub fn is_column(tree: &OrTree) -> bool
    ensures { result ≡ is_a_column (alone_of tree.now) }
{
    column::or(tree)
}
