//! Laws of the definitions, each the contract of a function that does nothing.

ghost use Rattle.aqe_rects.specs.Laws.{PlainRectanglesCover};

/// The plain rectangles of a stage, one for each reducer, cover its cells.
pub fn plain_rectangles_cover()
    ensures { PlainRectanglesCover }
{}
