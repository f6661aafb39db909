//! Laws of the definitions, each the contract of a function that does nothing.

ghost use Rattle.aqe_join_laws.specs.Laws.{JoinedSidesAreTheJoin, JoinedSidesOverAPlace, JoinsOfPlacedParts, JoinsWithAWholeLeft, JoinsWithAWholeRight, MatchingRowsHaveEqualKeys, MatchingRowsHaveOnePlace, MergedRowsAreTheJoin, RowsFromTheRightAreTheJoin, RowsOfEachWayAreTheJoin, SameMatchesGiveTheSameRows};

/// The rows of a sort-merge join are the rows of the join.
pub fn merged_rows_are_the_join()
    ensures { MergedRowsAreTheJoin }
{}

/// Where the left side may be built, so are the rows that are given from the right side.
pub fn rows_from_the_right_are_the_join()
    ensures { RowsFromTheRightAreTheJoin }
{}

/// Whatever the way of joining, the rows in its order are the rows of the join.
pub fn rows_of_each_way_are_the_join()
    ensures { RowsOfEachWayAreTheJoin }
{}

/// Rows that match have equal key rows.
pub fn matching_rows_have_equal_keys()
    ensures { MatchingRowsHaveEqualKeys }
{}

/// Rows that match have one place by the hash of their keys.
pub fn matching_rows_have_one_place()
    ensures { MatchingRowsHaveOnePlace }
{}

/// Two tests of which rows meet that agree at left rows of their width give the same rows.
pub fn same_matches_give_the_same_rows()
    ensures { SameMatchesGiveTheSameRows }
{}

/// Where rows that meet stand in parts of one number, the joins of the parts, end to end, are the join of the wholes.
pub fn joins_of_placed_parts()
    ensures { JoinsOfPlacedParts }
{}

/// Where the right side may be built, it may be taken whole with each left part.
pub fn joins_with_a_whole_right()
    ensures { JoinsWithAWholeRight }
{}

/// Rows that are given from the right side may be given from each right part with the whole left side.
pub fn joins_with_a_whole_left()
    ensures { JoinsWithAWholeLeft }
{}

/// The joined parts of two sides, end to end, are the rows of the join of the wholes, for any place that matching rows share.
pub fn joined_sides_over_a_place()
    ensures { JoinedSidesOverAPlace }
{}

/// So are those of sides that stand by the hash of their keys.
pub fn joined_sides_are_the_join()
    ensures { JoinedSidesAreTheJoin }
{}
