//! Plans of SELECTs without FROM that are grouped or have an order.

ghost use Rattle.std.specs.Prelude.{◌≤◌, length};

use aqe_lexer::tokens;
use aqe_logical::Logical;
use aqe_select::{Clauses, select};
use aqe_sources::one_row;
use aqe_syntax::parse;
use aqe_trees::{CoreTree, QueryTree, Script, SelectTree, SortTree, Stmt};
use std::alloc::{AllocError, Global};
use std::test::Fail;

/// The script of a source.
fn script_of(alloc: Global, source: &str) -> Result<Script, Fail>
    requires { length source.now ≤ 67108864 }
{
    let Ok(tokens) = tokens(alloc, source.as_bytes()) else {
        return Err(Fail::new("no tokens"));
    };
    match parse(alloc, source.as_bytes(), &tokens) {
        Ok(script) => Ok(script),
        Err(_) => Err(Fail::new("no script")),
    }
}

/// The node at the top of a plan, with the numbers of its keys, calls and items.
fn node_text(alloc: Global, plan: &Logical) -> Result<String, AllocError> {
    match plan {
        Logical::OneRow => String::from_str(alloc, "row"),
        Logical::Filter { .. } => String::from_str(alloc, "filter "),
        Logical::Project { items, .. } => format!(in alloc; "project {} ", items.len()),
        Logical::Aggregate { keys, calls, .. } => {
            format!(in alloc; "groups {} {} ", keys.len(), calls.len())
        }
        Logical::Sort { keys, .. } => format!(in alloc; "sort {} ", keys.len()),
        _ => String::from_str(alloc, "another"),
    }
}

/// The nodes of a plan, from the top down.
fn add_nodes(alloc: Global, plan: &Logical, text: &mut String) -> Result<(), AllocError> {
    let node = node_text(alloc, plan)?;
    text.push_str(node.as_str())?;
    match plan {
        Logical::Filter { child, .. }
        | Logical::Project { child, .. }
        | Logical::Aggregate { child, .. }
        | Logical::Sort { child, .. } => add_nodes(alloc, child.get(), text),
        _ => Ok(()),
    }
}

/// What a SELECT with this ORDER BY comes to, by the nodes of its plan or its refusal.
fn selected(alloc: Global, tree: &SelectTree, sorts: &[SortTree]) -> Result<String, Fail> {
    let clauses = Clauses {
        distinct: tree.distinct,
        list: tree.items.as_slice(),
        has_from: false,
        filter: &tree.filter,
        group: tree.group.as_slice(),
        having: &tree.having,
        sorts,
    };
    match select(alloc, &clauses, Ok(one_row(alloc))) {
        Ok(plan) => {
            let mut text = String::new(alloc);
            add_nodes(alloc, &plan, &mut text)?;
            Ok(text)
        }
        Err(fault) => {
            let text = format!(in alloc; "{fault:?}")?;
            Ok(text)
        }
    }
}

/// The same of a query.
fn shown(alloc: Global, query: &QueryTree) -> Result<String, Fail> {
    match &query.body.first {
        CoreTree::Select(tree) => selected(alloc, tree, query.order.as_slice()),
        CoreTree::Paren(_) => Err(Fail::new("no SELECT")),
    }
}

/// The same of the query that is a source's only statement.
fn shown_of(alloc: Global, source: &str) -> Result<String, Fail> {
    if source.len() > 1_000 {
        return Err(Fail::new("a long source"));
    }
    let script = script_of(alloc, source)?;
    let [Stmt::Query(query)] = script.slice() else {
        return Err(Fail::new("no query"));
    };
    shown(alloc, query)
}

/// Queries, and the nodes of their plans. A hidden column makes the list of the inner Project longer, and is dropped by an outer one;
/// equal calls stand once; DISTINCT groups by all output columns.
static PLANS: [(&str, &str); 9] = [
    ("SELECT count(*)", "project 1 groups 0 1 row"),
    ("SELECT 1 AS a ORDER BY a", "sort 1 project 1 row"),
    (
        "SELECT 1 AS a ORDER BY a + 1, length('b')",
        "sort 2 project 1 row",
    ),
    (
        "SELECT 1 AS a ORDER BY count(*)",
        "project 1 sort 1 project 2 groups 0 1 row",
    ),
    (
        "SELECT 1 AS a GROUP BY 1 HAVING max(2) > 1 ORDER BY 1 DESC",
        "sort 1 project 1 filter groups 1 1 row",
    ),
    (
        "SELECT max(1), min(2), max(1) ORDER BY 2",
        "sort 1 project 3 groups 0 2 row",
    ),
    (
        "SELECT DISTINCT count(*)",
        "groups 1 0 project 1 groups 0 1 row",
    ),
    (
        "SELECT DISTINCT 1 AS a ORDER BY a",
        "sort 1 groups 1 0 project 1 row",
    ),
    (
        "SELECT sum(1) AS s HAVING s > 0",
        "project 1 filter groups 0 1 row",
    ),
];

#[test]
fn grouped_and_ordered_selects_have_plans(rt: HostRuntime) -> Result<(), Fail> {
    let alloc = rt.alloc();
    for (source, nodes) in &PLANS {
        let shown = shown_of(alloc, source)?;
        assert_eq!(rt; shown.as_str(), *nodes, "{source}");
    }
    Ok(())
}
