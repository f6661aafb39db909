//! What may be used in a SELECT: the columns of its FROM, and its aggregate calls.

ghost use Rattle.std.specs.Prelude.{◌≡◌, [], IfOk};
ghost use Rattle.aqe_typing.specs.Calls.{calls_seen};
ghost use Rattle.aqe_sources.specs.Given.{Gives};
ghost use Rattle.aqe_select.specs.Scopes.{calls_over, Shows};

use crate::clauses::Clauses;
use aqe_base::{Listing, Memory};
use aqe_calls::calls_of;
use aqe_outputs::Shown;
use aqe_rules::{AnalysisFault, Named};
use aqe_sources::{FromItem, columns_of};
use aqe_trees::SortTree;
use aqe_typing::Call;
use std::alloc::Global;

/// The aggregate calls of a query with this ORDER BY. Where it is not grouped none may stand.
pub(crate) fn calls_if(
    alloc: Global,
    is_grouped: bool,
    columns: &[Named],
    clauses: &Clauses,
    sorts: &[SortTree],
) -> Result<Listing<Call>, Memory>
    ensures { IfOk result (λ calls. calls_seen calls ≡ calls_over is_grouped columns.now clauses.now sorts.now) }
{
    if is_grouped {
        calls_of(alloc, columns, clauses.list, clauses.having, sorts)
    } else {
        Ok(Listing::new(alloc))
    }
}

/// What FROM shows to the clauses, and the aggregate calls of all of them.
pub(crate) fn shown_to(
    alloc: Global,
    clauses: &Clauses,
    is_grouped: bool,
    items: Listing<FromItem>,
) -> Result<Shown, AnalysisFault>
    ensures { Gives result (λ s. Shows clauses.now is_grouped items s) }
{
    let columns = columns_of(alloc, items.slice())?;
    let calls = calls_if(alloc, is_grouped, columns.slice(), clauses, clauses.sorts)?;
    Ok(Shown {
        has_from: clauses.has_from,
        items,
        columns,
        calls,
    })
}
