//! The words and symbols of operators.

ghost use Rattle.std.specs.Prelude.{◌≡◌, Some};
ghost use Rattle.aqe_trees.specs.declared.terminal.Terminal.TheVariants.{Fixed};
ghost use Rattle.aqe_trees.specs.Words.{compare_of, sum_of, product_of, truth_of};
ghost use Rattle.aqe_phrases.specs.Written as written;
ghost use Rattle.aqe_phrases.specs.Written.{Sound};

use aqe_trees::{CompareOp, Key, ProductOp, Sign, Truth};

/// The symbol of a comparison.
pub(crate) fn compare_key(op: CompareOp) -> Key
    ensures op { compare_of (Fixed result) ≡ Some op }
    ensures sound { Sound (Fixed result) }
{
    match op {
        CompareOp::Equal => Key::Equal,
        CompareOp::Same => Key::Same,
        CompareOp::NotEqual => Key::NotEqual,
        CompareOp::Less => Key::Less,
        CompareOp::AtMost => Key::AtMost,
        CompareOp::Greater => Key::Greater,
        CompareOp::AtLeast => Key::AtLeast,
    }
}

/// The symbol of a sign.
pub(crate) fn sign_key(op: Sign) -> Key
    ensures op { sum_of (Fixed result) ≡ Some op }
    ensures sound { Sound (Fixed result) }
    ensures is { result ≡ written.sign_key op }
{
    match op {
        Sign::Plus => Key::Plus,
        Sign::Minus => Key::Minus,
    }
}

/// The symbol or the word of an operator that binds as `*` does.
pub(crate) fn product_key(op: ProductOp) -> Key
    ensures op { product_of (Fixed result) ≡ Some op }
    ensures sound { Sound (Fixed result) }
{
    match op {
        ProductOp::Times => Key::Star,
        ProductOp::Remainder => Key::Percent,
        ProductOp::Divide => Key::Div,
    }
}

/// The word for what IS asks for.
pub(crate) fn truth_key(truth: Truth) -> Key
    ensures truth { truth_of (Fixed result) ≡ Some truth }
    ensures sound { Sound (Fixed result) }
{
    match truth {
        Truth::Null => Key::Null,
        Truth::True => Key::True,
        Truth::False => Key::False,
    }
}
