//! Laws of the definitions, each the contract of a function that does nothing.

ghost use Rattle.aqe_places.specs.Laws.{BoundsAreFewer, BoundsAreInOrder, BoundsAreSamples, ExchangesKeepTheRows, ExchangesPlaceTheRows, HashPlacesAreParts, OnePartHasTheRows, RangePartsAreInOrder, RangePlacesAreParts, SampledRangesAreTheSort, SamplesAreKeys, SortKeysDecideInTurn, SortKeysOrder, SortedAndStableIsTheSort, SortedPartsAreSorted, SortedRangesAreTheSort, SortsAreStable, SortsKeepTheRows, SortsOrderTheRows};

/// The parts of an exchange have the rows that came in.
pub fn exchanges_keep_the_rows()
    ensures { ExchangesKeepTheRows }
{}

/// Each row stands in the part of its place, so rows of one key stand in one part.
pub fn exchanges_place_the_rows()
    ensures { ExchangesPlaceTheRows }
{}

/// An exchange to one part has all rows in it, in the order in which they came.
pub fn one_part_has_the_rows()
    ensures { OnePartHasTheRows }
{}

/// Each place by hash is that of a part.
pub fn hash_places_are_parts()
    ensures { HashPlacesAreParts }
{}

/// With fewer bounds than parts, each place by range is that of a part.
pub fn range_places_are_parts()
    ensures { RangePlacesAreParts }
{}

/// A sorted list has the rows that it was made of.
pub fn sorts_keep_the_rows()
    ensures { SortsKeepTheRows }
{}

/// No later row of a sorted list comes before an earlier one.
pub fn sorts_order_the_rows()
    ensures { SortsOrderTheRows }
{}

/// Rows none of which comes before another stay in the order in which they came.
pub fn sorts_are_stable()
    ensures { SortsAreStable }
{}

/// Of two rows the first sort key by which they differ decides, by its way.
pub fn sort_keys_decide_in_turn()
    ensures { SortKeysDecideInTurn }
{}

/// The test of a sort by keys orders, so its sorted lists are in order.
pub fn sort_keys_order()
    ensures { SortKeysOrder }
{}

/// A list that is sorted, and in which rows that tie stand as in another list, is the other list sorted.
pub fn sorted_and_stable_is_the_sort()
    ensures { SortedAndStableIsTheSort }
{}

/// A number of ranges has fewer bounds than ranges, whatever the samples.
pub fn bounds_are_fewer()
    ensures { BoundsAreFewer }
{}

/// Bounds are in the order by which they were made.
pub fn bounds_are_in_order()
    ensures { BoundsAreInOrder }
{}

/// Parts by range stand in order end to end, for any list of bounds.
pub fn range_parts_are_in_order()
    ensures { RangePartsAreInOrder }
{}

/// Parts that stand in order, each sorted and put end to end, are their rows sorted.
pub fn sorted_parts_are_sorted()
    ensures { SortedPartsAreSorted }
{}

/// The parts of an exchange by range, each sorted and put end to end, are the rows that came in, sorted.
pub fn sorted_ranges_are_the_sort()
    ensures { SortedRangesAreTheSort }
{}

/// The samples of a list are keys of it, 20 of them or as many as there are.
pub fn samples_are_keys()
    ensures { SamplesAreKeys }
{}

/// Bounds are samples.
pub fn bounds_are_samples()
    ensures { BoundsAreSamples }
{}

/// The whole of a sort by range, whatever the samples: the parts by their bounds, each sorted and put end to end, are the rows sorted.
pub fn sampled_ranges_are_the_sort()
    ensures { SampledRangesAreTheSort }
{}
