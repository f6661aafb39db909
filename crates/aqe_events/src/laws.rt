//! The law of events files, as the contract of a function that does nothing.

ghost use Rattle.aqe_events.specs.Laws.{OneReading};

/// An events file has at most one reading.
pub fn one_reading()
    ensures { OneReading }
{}
