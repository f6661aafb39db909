//! Laws of the definitions, each the contract of a function that does nothing.

ghost use Rattle.aqe_expr.specs.Operators.{UnaryEqualAsWritten, BinaryEqualAsWritten};

/// `==` on operations on one value is the sameness that the definition writes out.
pub fn unary_equal_as_written()
    ensures { UnaryEqualAsWritten }
{}

/// `==` on operations on two values is the sameness that the definition writes out.
pub fn binary_equal_as_written()
    ensures { BinaryEqualAsWritten }
{}
