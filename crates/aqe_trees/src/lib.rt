//! The trees of the language: what its sentences are made of, and which tokens spell which tree.
#![tactic(auto)]

mod expression;
mod keyword;
mod laws;
mod query;
mod statement;
mod terminal;

pub use expression::{
    AndTree, Arm, CompareOp, ComparisonTree, NotTree, OrTree, PredicateTree, PrimaryTree,
    ProductOp, ProductTree, Sign, SignTree, SumTree, Test, Truth,
};
pub use keyword::{key_text, symbol_key, word_key};
pub use laws::{keys_read_back, one_query, one_table};
pub use query::{
    CoreTree, ItemTree, JoinStep, JoinedTree, QueryTree, SelectTree, SortTree, SourceTree,
    UnionTree,
};
pub use statement::{ColumnForms, OptionForms, Script, SetForm, Stmt, TableForm};
pub use terminal::{Key, Terminal};
