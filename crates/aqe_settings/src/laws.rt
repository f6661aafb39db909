//! A law of the definitions, the contract of a function that does nothing.

ghost use Rattle.aqe_settings.specs.Ranges.{PartitionsInRange};

/// An exchange has 1 to 10000 partitions, over any list of values that lie in their ranges.
pub fn partitions_in_range()
    ensures { PartitionsInRange }
{}
