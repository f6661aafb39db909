//! The reader of scripts: from tokens to the trees that they spell, proved against the grammar in both directions; and back to a text.
#![tactic(auto)]

mod boxes;
mod fault;
mod joins;
mod parsing;
mod parts;
mod queries;
mod scripts;
mod statements;
mod tables;
mod words;

pub use aqe_spell::spell;
pub use aqe_trees::{
    AndTree, Arm, ColumnForms, CompareOp, ComparisonTree, CoreTree, ItemTree, JoinStep, JoinedTree,
    NotTree, OptionForms, OrTree, PredicateTree, PrimaryTree, ProductOp, ProductTree, QueryTree,
    Script, SelectTree, SetForm, Sign, SignTree, SortTree, SourceTree, Stmt, SumTree, TableForm,
    Test, Truth, UnionTree,
};
pub use fault::SyntaxFault;
pub use parsing::parse;
pub use queries::query;
pub use scripts::read_script;
pub use tables::create;
