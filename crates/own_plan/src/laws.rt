// Laws about own-period plans, each the contract of a function that does nothing.
ghost use Rattle.own_plan.specs.OwnPeriod.{OwnPeriodIsOne};

/// A problem in which no item is its own component has one own-period plan: two of them have the same
/// numbers for all items and periods, and cost the same.
pub fn own_period_is_one()
    ensures { OwnPeriodIsOne }
{}
