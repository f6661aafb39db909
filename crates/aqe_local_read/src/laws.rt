//! Laws of the definitions, each the contract of a function that does nothing.

ghost use Rattle.aqe_local_read.specs.Laws.{LocalRectanglesCover, RunsAreEven};

/// The rectangles of a local read have each cell once, and no other.
pub fn local_rectangles_cover()
    ensures { LocalRectanglesCover }
{}

/// Runs follow one another, are all as long up to one, and longer ones stand first.
pub fn runs_are_even()
    ensures { RunsAreEven }
{}
