//! Laws of the definitions, each the contract of a function that does nothing.

ghost use Rattle.aqe_join_keys.specs.Laws.{KeysAreOverTheirSides, KeysArePairs, KeysMeanTheCondition, LeftKeysReadTheLeftRow};

/// A left and a right row match by the keys of a condition exactly where the condition holds of both.
pub fn keys_mean_the_condition()
    ensures { KeysMeanTheCondition }
{}

/// Each left key stands beside a right key, and there are no more of them than a row has columns.
pub fn keys_are_pairs()
    ensures { KeysArePairs }
{}

/// Left keys are over the left row, right keys over the right row, and the rest over both.
pub fn keys_are_over_their_sides()
    ensures { KeysAreOverTheirSides }
{}

/// Left keys have the same values over a left row, whatever stands behind it.
pub fn left_keys_read_the_left_row()
    ensures { LeftKeysReadTheLeftRow }
{}
