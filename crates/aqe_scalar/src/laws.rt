//! Laws of the definitions, each the contract of a function that does nothing.

ghost use Rattle.aqe_scalar.specs.Keys.{KeysMeetWhereSame};

/// `a = b` is true exactly where both are the same value and neither is NULL.
pub fn keys_meet_where_same()
    ensures { KeysMeetWhereSame }
{}
