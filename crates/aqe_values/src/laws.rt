//! Laws of the definitions, each the contract of a function that does nothing.

ghost use Rattle.aqe_values.specs.Equality.{ValuesEqualAsData, ValuesEqualByCases, RowsEqualAsData};
ghost use Rattle.aqe_values.specs.KeyOrder.{KeyRowsTotallyOrdered, SortedIsInOrder};
ghost use Rattle.aqe_values.specs.Order.{ValuesOrderedByType};

/// Two values are equal exactly where they are the same data; NULL equals NULL.
pub fn values_equal_as_data()
    ensures { ValuesEqualAsData }
{}

/// The equality of values, which the derive on `Value` gives, is the one that the definition writes out by cases.
pub fn values_equal_by_cases()
    ensures { ValuesEqualByCases }
{}

/// Two rows are equal exactly where they have the same values in the same order.
pub fn rows_equal_as_data()
    ensures { RowsEqualAsData }
{}

/// The order of values, which the derive on `Value` gives, is the one that the definition writes out.
pub fn values_ordered_by_type()
    ensures { ValuesOrderedByType }
{}

/// Under any ways of sorting, key rows of any widths are totally ordered.
pub fn key_rows_totally_ordered()
    ensures { KeyRowsTotallyOrdered }
{}

/// A list that is sorted as a sort of the standard library leaves it is in the order of the definitions, and back.
pub fn sorted_is_in_order()
    ensures { SortedIsInOrder }
{}
