//! Laws of the definitions, each the contract of a function that does nothing.

ghost use Rattle.aqe_type_laws.specs.Laws.{ExpressionsAreTyped, AnswersFitTheColumns, PlansKeepTypes, PlansAreTyped, NodesAreTyped, TablesFitTheScans};

/// Over rows whose values are NULL or of their column's type, an expression to which the analysis
/// gives a type has values that are NULL or of that type.
pub fn expressions_are_typed()
    ensures { ExpressionsAreTyped }
{}

/// A plan of which each node gives what its columns say answers with rows whose values are NULL or
/// of their column's type.
pub fn answers_fit_the_columns()
    ensures { AnswersFitTheColumns }
{}

/// The plan of a query is one of which each node gives what its columns say.
pub fn plans_keep_types()
    ensures { PlansKeepTypes }
{}

/// The plan of a query answers with rows whose values are NULL or of their column's type, where
/// the rows of the tables that it scans are so.
pub fn plans_are_typed()
    ensures { PlansAreTyped }
{}

/// So does each plan within it: what stands below a column of any node is of the column's type.
pub fn nodes_are_typed()
    ensures { NodesAreTyped }
{}

/// Tables whose rows fit the columns of their catalog fit the scans of a query's plan.
pub fn tables_fit_the_scans()
    ensures { TablesFitTheScans }
{}
