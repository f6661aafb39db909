//! Laws of the definitions, each the contract of a function that does nothing.

ghost use Rattle.aqe_fit_laws.specs.Laws.{FinishedExchangesStand, FittingPlansServe, FittingPlansStand, GroupsMovePlaces, GroupsOfMovedParts, GroupsOfPlacedParts, GroupsOverAPlace, JoinsByPartsMovePlaces, JoinsKeepTheLeftPlace, JoinsMoveTheRightPlace, LimitsOfOnePart, LimitsOfPartsAreTheLimit, NodesWithinPartsKeepPlaces, PartsWithoutExchangeRun, PlainReadsServe, PlansOfQueriesStand, PlansServe, ProjectsMovePlaces, SortsOfMovedParts, SortsOverAPlace, UnionsOfParts};

/// What is done to each part by itself, and makes no new row, keeps every placement.
pub fn nodes_within_parts_keep_places()
    ensures { NodesWithinPartsKeepPlaces }
{}

/// A project moves every placement as the table of placements says.
pub fn projects_move_places()
    ensures { ProjectsMovePlaces }
{}

/// Partial groups over parts in which equal keys stand together move every placement as the table of placements says.
pub fn groups_move_places()
    ensures { GroupsMovePlaces }
{}

/// Partial rows that are moved by the hash of their key columns stand so when they are finished.
pub fn finished_exchanges_stand()
    ensures { FinishedExchangesStand }
{}

/// A join part by part, of sides that stand by the hash of their keys, stands as the table of placements says.
pub fn joins_by_parts_move_places()
    ensures { JoinsByPartsMovePlaces }
{}

/// Left parts that are joined with the whole of the right side stand as they did.
pub fn joins_keep_the_left_place()
    ensures { JoinsKeepTheLeftPlace }
{}

/// Right parts that are joined with the whole of the left side stand as they did, with their keys spelled over joined rows.
pub fn joins_move_the_right_place()
    ensures { JoinsMoveTheRightPlace }
{}

/// Over parts in which rows of equal keys stand together, the groups of the parts end to end are the groups of the whole.
pub fn groups_of_placed_parts()
    ensures { GroupsOfPlacedParts }
{}

/// So are the groups over parts that stand in any way in which rows of equal grouping keys stand in one part.
pub fn groups_over_a_place()
    ensures { GroupsOverAPlace }
{}

/// Partial rows that are moved by their keys and then finished part by part are the groups of the whole.
pub fn groups_of_moved_parts()
    ensures { GroupsOfMovedParts }
{}

/// A limit of rows in one part is that of the part.
pub fn limits_of_one_part()
    ensures { LimitsOfOnePart }
{}

/// A limit of the first rows of each part is the limit of all rows, in their order.
pub fn limits_of_parts_are_the_limit()
    ensures { LimitsOfPartsAreTheLimit }
{}

/// Over a place at which parts are in order end to end, the parts, each sorted, are their rows sorted.
pub fn sorts_over_a_place()
    ensures { SortsOverAPlace }
{}

/// Rows that are moved by ranges and then sorted part by part are the rows sorted, whatever the samples.
pub fn sorts_of_moved_parts()
    ensures { SortsOfMovedParts }
{}

/// The parts of one side and then those of another are the rows of the one and then those of the other.
pub fn unions_of_parts()
    ensures { UnionsOfParts }
{}

/// A plan that the table of planning gives for a well-formed logical plan has an answer of it as its rows, stands as it is placed, and runs.
pub fn plans_serve()
    ensures { PlansServe }
{}

/// The rows of a plan of a query are an answer of the query, whatever stages there are; and it runs.
pub fn plans_of_queries_stand()
    ensures { PlansOfQueriesStand }
{}

/// A plan that fits serves its logical plan, where nothing is planned again.
pub fn fitting_plans_serve()
    ensures { FittingPlansServe }
{}

/// A plan that fits a query stands for it, whatever stages there are and whatever the settings.
pub fn fitting_plans_stand()
    ensures { FittingPlansStand }
{}

/// The plain read of a stage that was made for a place has the rows that the stage holds, and its parts stand at that place.
pub fn plain_reads_serve()
    ensures { PlainReadsServe }
{}

/// Where a plan runs apart from its exchanges, each part of it without an exchange is a body that a task can run.
pub fn parts_without_exchange_run()
    ensures { PartsWithoutExchangeRun }
{}
