// Laws of what is told of a plan, each the contract of a function that does nothing.
ghost use Rattle.plan_report.specs.Laws.{ColumnsAreStraight, LoadsAreShares, PartsAddUp, RowsStand};

/// The four parts of an item's costs add up to what it costs, and those of all items to what the plan costs.
pub fn parts_add_up()
    ensures { PartsAddUp }
{}

/// In a feasible plan the time that is used and the time that is free add up to the time that there is, the load is at most
/// 100 percent, and 100 only where all of the time is used.
pub fn loads_are_shares()
    ensures { LoadsAreShares }
{}

/// Each item and each resource stands in the line of JSON with its numbers, and each item's lots and stocks and each
/// resource's loads and free times stand in the tables, a line each.
pub fn rows_stand_in_the_texts()
    ensures { RowsStand }
{}

/// All lines of a table are as long as its head, so that each number stands below its period.
pub fn columns_are_straight()
    ensures { ColumnsAreStraight }
{}
