//! The rows of groups: the keys, and the values of the calls behind them.

ghost use Rattle.std.specs.Prelude.{◌≡◌, ◌+◌, length};
ghost use Rattle.aqe_expr.specs.declared.expr.Expr.{Expr, Column};
ghost use Rattle.aqe_rules.specs.Faults.{Says};
ghost use Rattle.aqe_rules.specs.Grouping as spec;
ghost use Rattle.aqe_rules.specs.Outcomes.{Outcome};
ghost use Rattle.aqe_sources.specs.Given.{Gives};
ghost use Rattle.aqe_grouping.specs.Keys.{exprs_of, names_of, key_or};

use aqe_base::AnalysisKind;
use aqe_expr::Expr;
use aqe_rules::{AnalysisFault, Named, Typed, refused};
use aqe_same::same_expr;
use aqe_unions::column_at;
use std::alloc::Global;

/// The keys of the groups and the columns of FROM.
#[derive(Drop)]
pub struct Groups<'a> {
    /// The keys, over the columns of FROM.
    pub keys: &'a [Typed],
    /// The columns of FROM. The values of calls are taken to stand behind them.
    pub columns: &'a [Named],
}

/// The place of the first key that the expression equals.
pub(crate) fn key_place(keys: &[Typed], expr: &Expr) -> Option<usize>
    ensures { (other : Outcome Expr) → key_or result other ≡ spec.from_key (exprs_of keys.now) 0 expr.now other }
{
    'keys: for (place, key) in keys.iter().enumerate() {
        if same_expr(&key.expr, expr) {
            return Some(place);
        }
    }
    None
}

/// The column at a place of the rows of the groups.
pub(crate) fn group_column(place: usize) -> Result<Expr, AnalysisFault>
    ensures { Gives result (λ e. e ≡ Column place) }
{
    let column = column_at(place)?;
    Ok(column)
}

/// The column of a call, behind so many keys.
fn behind_keys(keys: usize, call: usize) -> Result<Expr, AnalysisFault>
    ensures { Gives result (λ e. e ≡ Column (keys + call)) }
{
    match keys.checked_add(call) {
        Some(place) => group_column(place),
        None => Err(AnalysisFault::Memory),
    }
}

/// A column that is no key: the value of a call, or the refusal of a column of FROM.
pub(crate) fn call_column(
    alloc: Global,
    groups: &Groups,
    place: usize,
) -> Result<Expr, AnalysisFault>
    ensures { Says result (spec.call_behind (length groups.now.keys.now) (names_of groups.now.columns.now) place) }
{
    let columns = groups.columns;
    if place < columns.len() {
        let name = columns[place].name.as_str();
        return Err(refused(alloc, AnalysisKind::NotGrouped, name));
    }
    behind_keys(groups.keys.len(), place - columns.len())
}
