//! The plan of a query.

ghost use Rattle.std.specs.Prelude.{◌≡◌, [], map};
ghost use Rattle.aqe_rules.specs.Analysis.{rules, walk};
ghost use Rattle.aqe_rules.specs.Faults.{Says};
ghost use Rattle.aqe_rules.specs.QueryTrees.{made_of_union, made_of_core, made_of_select, made_of_joined, made_of_source};
ghost use Rattle.aqe_rules.specs.Sources.{from_all};
ghost use Rattle.aqe_sources.specs.Catalogs.{seen};
ghost use Rattle.aqe_sources.specs.Seen.{from_seen, SaysSeen};

use crate::steps::{
    core_order, has_from, in_order, is_lone, union_in_order, united_next, within_cut,
};
use aqe_logical::Logical;
use aqe_rules::AnalysisFault;
use aqe_script::parts::{joined_parts, query_parts, select_parts, step_parts, union_parts};
use aqe_select::{Clauses, select};
use aqe_sources::{FromPlan, cross_next, join_next, one_row, query_source, table_source};
use aqe_tables::Catalog;
use aqe_trees::{CoreTree, JoinedTree, QueryTree, SelectTree, SortTree, SourceTree, UnionTree};
use std::alloc::Global;

/// The analysed plan of a query over the tables of the catalog, or the first check that fails.
///
/// Checks come in the order of the walk: FROM from left to right, each subquery whole; WHERE; GROUP BY; the select list; HAVING;
/// the further cores of a union; ORDER BY. At one node the operators of its plan are counted before its columns.
#[cycle(query)]
pub fn analyse(
    alloc: Global,
    query: &QueryTree,
    catalog: &Catalog,
) -> Result<Logical, AnalysisFault>
    ensures { Says result (walk query.now (seen catalog.now)) }
{
    let (body, order, limit, offset) = query_parts(query);
    within_cut(alloc, limit, offset, union(alloc, body, order, catalog))
}

/// The plan of what stands before ORDER BY, LIMIT and OFFSET, in this order.
#[cycle(query)]
fn union(
    alloc: Global,
    tree: &UnionTree,
    order: &[SortTree],
    catalog: &Catalog,
) -> Result<Logical, AnalysisFault>
    ensures { Says result (made_of_union rules tree.now (seen catalog.now) order.now) }
{
    let (first, rest) = union_parts(tree);
    let lone = is_lone(rest);
    let mut plan = core(alloc, first, core_order(lone, order), catalog);
    'more: for next in rest {
        plan = united_next(alloc, next.0, plan, core(alloc, &next.1, &[], catalog));
    }
    union_in_order(alloc, lone, order, plan)
}

/// The plan of a SELECT, or of a query in parentheses, in this order.
#[cycle(query)]
fn core(
    alloc: Global,
    tree: &CoreTree,
    order: &[SortTree],
    catalog: &Catalog,
) -> Result<Logical, AnalysisFault>
    ensures { Says result (made_of_core rules tree.now (seen catalog.now) order.now) }
{
    match tree {
        CoreTree::Paren(inner) => in_order(alloc, order, analyse(alloc, inner.get(), catalog)),
        CoreTree::Select(parts) => selected(alloc, parts, order, catalog),
    }
}

/// The plan of a SELECT in this order.
#[cycle(query)]
fn selected(
    alloc: Global,
    tree: &SelectTree,
    order: &[SortTree],
    catalog: &Catalog,
) -> Result<Logical, AnalysisFault>
    ensures { Says result (made_of_select rules tree.now (seen catalog.now) order.now) }
{
    let (distinct, list, sources, filter, group, having) = select_parts(tree);
    let clauses = Clauses {
        distinct,
        list,
        has_from: has_from(sources),
        filter,
        group,
        having,
        sorts: order,
    };
    select(alloc, &clauses, from(alloc, sources, catalog))
}

/// The plan of FROM; one row without columns where there is none.
#[cycle(query)]
fn from(alloc: Global, sources: &[JoinedTree], catalog: &Catalog) -> Result<FromPlan, AnalysisFault>
    ensures { SaysSeen from_seen result (from_all (seen catalog.now) (map (made_of_joined rules) sources.now)) }
{
    let Some((first, rest)) = sources.split_first() else {
        return Ok(one_row(alloc));
    };
    let mut plan = joined(alloc, first, catalog);
    'more: for next in rest {
        plan = cross_next(alloc, plan, joined(alloc, next, catalog));
    }
    plan
}

/// The plan of sources that are joined.
#[cycle(query)]
fn joined(alloc: Global, tree: &JoinedTree, catalog: &Catalog) -> Result<FromPlan, AnalysisFault>
    ensures { SaysSeen from_seen result (made_of_joined rules tree.now (seen catalog.now)) }
{
    let (first, steps) = joined_parts(tree);
    let mut plan = source(alloc, first, catalog);
    'steps: for step in steps {
        let (kind, next, on) = step_parts(step);
        plan = join_next(alloc, kind, on, plan, source(alloc, next, catalog));
    }
    plan
}

/// The plan of a source.
#[cycle(query)]
fn source(alloc: Global, tree: &SourceTree, catalog: &Catalog) -> Result<FromPlan, AnalysisFault>
    ensures { SaysSeen from_seen result (made_of_source rules tree.now (seen catalog.now)) }
{
    match tree {
        SourceTree::Table { name, alias } => table_source(alloc, name, alias, catalog),
        SourceTree::Paren { query, alias } => {
            query_source(alloc, alias, analyse(alloc, query.get(), catalog))
        }
    }
}
