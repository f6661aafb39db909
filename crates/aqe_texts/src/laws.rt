//! Laws of the definitions, each the contract of a function that does nothing.

ghost use Rattle.aqe_texts.specs.ResultText.{TextsTellRows};

/// Under the same columns, different rows have different printed texts.
pub fn texts_tell_rows()
    ensures { TextsTellRows }
{}
