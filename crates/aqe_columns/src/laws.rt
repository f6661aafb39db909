//! Laws of the definitions, each the contract of a function that does nothing.

ghost use Rattle.aqe_columns.specs.Laws.{ColumnsBelowAsData, PartsHoldTogether, ReplacementKeepsTheValue, ValuesReadTheirColumns};

/// An expression with its columns replaced has, over a row, the value of the expression over the
/// row of the values that they are replaced by.
pub fn replacement_keeps_the_value()
    ensures { ReplacementKeepsTheValue }
{}

/// All parts of a condition hold of a row exactly where the condition does.
pub fn parts_hold_together()
    ensures { PartsHoldTogether }
{}

/// Over two rows that agree at the columns that an expression reads, it has the same value.
pub fn values_read_their_columns()
    ensures { ValuesReadTheirColumns }
{}

/// An expression is over n columns where each column that it reads is below n.
pub fn columns_below_as_data()
    ensures { ColumnsBelowAsData }
{}
