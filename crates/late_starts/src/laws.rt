// Laws, each the contract of a function that does nothing.
ghost use Rattle.late_starts.specs.OnTime.{LateStartsHold, MustStartIsWithinOnTime, OnTimeExists, OnTimeIsGreatest, OnTimeIsMustStart, OnTimeIsOne, OnTimeIsWithinTotals, OnTimeRises, ShortfallsAreOne, ShortfallsEnd, ShortfallsExist};
ghost use Rattle.late_starts.specs.Charges.{ChargesAgree, ChargesAreOne, ChargesCover, ChargesExist, LateRowsHold, NoShareIsCharged, SharesArePaid};
ghost use Rattle.late_starts.specs.Choices.{LateChoicesExist, LateFloorsAgree, LateItemsBound, PlansAreLateChoices};

/// Every feasible plan has started of each item all that is on time, but for the shortfall that its backlogs allow
/// (`holds`), in every problem whose items have a ranking. To any backlogs there are shortfalls (`exist`), and they
/// are one number of each item and period (`one`). Lots that arrive in the last period or later may not fall short
/// (`end`).
pub fn late_starts_hold()
    ensures holds { LateStartsHold }
    ensures exist { ShortfallsExist }
    ensures one { ShortfallsAreOne }
    ensures end { ShortfallsEnd }
{}

/// There is a table of what is on time (`exist`), and it is one number of each item and period (`one`). It doesn't fall
/// (`rises`): it is the greatest of what must arrive by any period up to that in which its lots arrive (`greatest`). It
/// is no less than what must have been started where items may be late (`must`), the same where nothing may be late
/// (`never`), and no more than the largest total (`totals`).
pub fn on_time_is_one()
    ensures one { OnTimeIsOne }
    ensures exist { OnTimeExists }
    ensures rises { OnTimeRises }
    ensures greatest { OnTimeIsGreatest }
    ensures must { MustStartIsWithinOnTime }
    ensures never { OnTimeIsMustStart }
    ensures totals { OnTimeIsWithinTotals }
{}

/// The shares of the shortfalls of any backlogs cost as much as the charges of these backlogs (`cover`): so they are
/// paid for, where no charge is above the price of its backlog (`paid`). Every feasible plan keeps the row of its
/// quantities and backlogs that comes of it (`rows`). To any shares there are charges (`exist`), and they are one
/// number of each item and period (`one`), whichever table says what is on time (`agree`), and 0 where no share is
/// more (`none`).
pub fn charges_cover()
    ensures cover { ChargesCover }
    ensures paid { SharesArePaid }
    ensures rows { LateRowsHold }
    ensures exist { ChargesExist }
    ensures one { ChargesAreOne }
    ensures agree { ChargesAgree }
    ensures none { NoShareIsCharged }
{}

/// The setups, quantities and shortfalls of an item in a feasible plan are a choice of its late lots (`plans`), of
/// which there is always one (`exist`). So floors of items, whose shares charge no more than its price on any backlog,
/// are a floor of what a feasible plan pays for its setups, quantities and backlogs at any prices (`bound`). Lots that
/// are the same period by period have the same floors (`same`).
pub fn late_items_bound()
    ensures plans { PlansAreLateChoices }
    ensures exist { LateChoicesExist }
    ensures bound { LateItemsBound }
    ensures same { LateFloorsAgree }
{}
