// Laws of bills, each the contract of a function that does nothing.
ghost use Rattle.bill.specs.Laws.{TotalsExist, WeightsExist};

/// The items of a bill that has ranks have totals and weights, so that what is said of all totals and
/// weights is said of some.
pub fn totals_exist()
    ensures totals { TotalsExist }
    ensures weights { WeightsExist }
{}
