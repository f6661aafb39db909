//! The trees of queries.

ghost use Rattle.std.specs.Prelude.{◌≡◌, IfOk};
ghost use Rattle.aqe_trees.specs.Shapes.{query_tree, union_tree, select_tree, joined_tree, join_step, sort_tree};
ghost use Rattle.aqe_trees.specs.declared.query.CoreTree;
ghost use Rattle.aqe_trees.specs.declared.query.SourceTree;

use crate::OrTree;
use aqe_base::{JoinKind, Memory};
use aqe_values::Text;
use sqlite_items::{Boxed, Items};
use std::alloc::Global;

/// `union [ORDER BY sort {, sort}] [LIMIT number] [OFFSET number]`
#[cycle(query)]
#[derive(Drop)]
pub struct QueryTree {
    pub body: UnionTree,
    /// Empty where there is no ORDER BY.
    pub order: Items<SortTree>,
    pub limit: Option<u64>,
    pub offset: Option<u64>,
}

/// `core {UNION [ALL | DISTINCT] core}`: each further core with whether equal rows count once (no ALL).
#[cycle(query)]
#[derive(Drop)]
pub struct UnionTree {
    pub first: CoreTree,
    pub rest: Items<(bool, CoreTree)>,
}

/// What UNION joins.
#[cycle(query)]
#[derive(Drop)]
pub enum CoreTree {
    /// `( query )`
    Paren(Boxed<QueryTree>),
    /// `SELECT ..`
    Select(SelectTree),
}

/// `SELECT [ALL | DISTINCT] item {, item} [FROM ..] [WHERE or] [GROUP BY or {, or}] [HAVING or]`
#[cycle(query)]
#[derive(Drop)]
pub struct SelectTree {
    pub distinct: bool,
    pub items: Items<ItemTree>,
    /// Empty where there is no FROM.
    pub from: Items<JoinedTree>,
    pub filter: Option<OrTree>,
    /// Empty where there is no GROUP BY.
    pub group: Items<OrTree>,
    pub having: Option<OrTree>,
}

/// One item of a select list.
#[derive(Drop)]
pub enum ItemTree {
    /// `*`
    All,
    /// `name . *`
    AllOf(Text),
    /// `or [[AS] name]`
    One { value: OrTree, alias: Option<Text> },
}

/// `source {[kind] JOIN source [ON or]}`
#[cycle(query)]
#[derive(Drop)]
pub struct JoinedTree {
    pub first: SourceTree,
    pub rest: Items<JoinStep>,
}

/// `[kind] JOIN source [ON or]`; without ON each pair is joined.
#[cycle(query)]
#[derive(Drop)]
pub struct JoinStep {
    pub kind: JoinKind,
    pub source: SourceTree,
    pub on: Option<OrTree>,
}

/// What FROM reads.
#[cycle(query)]
#[derive(Drop)]
pub enum SourceTree {
    /// `name [[AS] name]`
    Table {
        name: Text,
        alias: Option<Text>,
    },
    /// `( query ) [[AS] name]`
    Paren {
        query: Boxed<QueryTree>,
        alias: Option<Text>,
    },
}

/// `or [ASC | DESC] [NULLS (FIRST | LAST)]`
#[derive(Drop)]
pub struct SortTree {
    pub value: OrTree,
    pub descending: bool,
    /// Whether NULLs stand last: as written, else as the direction has it.
    pub nulls_last: bool,
}

impl QueryTree {
    /// The body with its ORDER BY, LIMIT and OFFSET.
    pub fn new(
        body: UnionTree,
        order: Items<SortTree>,
        limit: Option<u64>,
        offset: Option<u64>,
    ) -> QueryTree
        ensures { result ≡ query_tree body order limit offset }
    {
        QueryTree {
            body,
            order,
            limit,
            offset,
        }
    }
}

impl UnionTree {
    /// The union of the cores.
    pub fn new(first: CoreTree, rest: Items<(bool, CoreTree)>) -> UnionTree
        ensures { result ≡ union_tree first rest }
    {
        UnionTree { first, rest }
    }
}

impl CoreTree {
    /// `( query )`
    pub fn paren(alloc: Global, query: QueryTree) -> Result<CoreTree, Memory>
        ensures { IfOk result (λ t. t ≡ CoreTree.Paren query) }
    {
        let query = Boxed::new(alloc, query)?;
        Ok(CoreTree::Paren(query))
    }

    /// `SELECT ..`
    pub fn select(select: SelectTree) -> CoreTree
        ensures { result ≡ CoreTree.Select select }
    {
        CoreTree::Select(select)
    }
}

impl SelectTree {
    /// The parts of a SELECT.
    pub fn new(
        distinct: bool,
        items: Items<ItemTree>,
        from: Items<JoinedTree>,
        filter: Option<OrTree>,
        group: Items<OrTree>,
        having: Option<OrTree>,
    ) -> SelectTree
        ensures { result ≡ select_tree distinct items from filter group having }
    {
        SelectTree {
            distinct,
            items,
            from,
            filter,
            group,
            having,
        }
    }
}

impl JoinedTree {
    /// The source and what is joined to it.
    pub fn new(first: SourceTree, rest: Items<JoinStep>) -> JoinedTree
        ensures { result ≡ joined_tree first rest }
    {
        JoinedTree { first, rest }
    }
}

impl JoinStep {
    /// The source that is joined, and the condition of ON.
    pub fn new(kind: JoinKind, source: SourceTree, on: Option<OrTree>) -> JoinStep
        ensures { result ≡ join_step kind source on }
    {
        JoinStep { kind, source, on }
    }
}

impl SourceTree {
    /// `( query ) [[AS] name]`
    pub fn paren(alloc: Global, query: QueryTree, alias: Option<Text>) -> Result<SourceTree, Memory>
        ensures { IfOk result (λ t. t ≡ SourceTree.Paren query alias) }
    {
        let query = Boxed::new(alloc, query)?;
        Ok(SourceTree::Paren { query, alias })
    }
}
