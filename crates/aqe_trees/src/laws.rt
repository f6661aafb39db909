//! Laws of the grammar, each stated by the contract of a function that does nothing.

ghost use Rattle.aqe_trees.specs.Laws.{OneQuery, OneTable, KeysReadBack};

/// Terminals spell at most one query.
pub fn one_query()
    ensures { OneQuery }
{}

/// Terminals spell at most one CREATE TABLE.
pub fn one_table()
    ensures { OneTable }
{}

/// The text of a reserved word or a symbol is read back as that word or symbol.
pub fn keys_read_back()
    ensures { KeysReadBack }
{}
