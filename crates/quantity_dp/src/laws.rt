// Laws, each the contract of a function that does nothing.
ghost use Rattle.quantity_dp.specs.Laws.{PlansAreChoices};

use must_start::{lots_hold, must_start_holds};

/// The quantities and setups of an item in a feasible plan are a choice of its lots: what must have been started of
/// it, and its largest lots. So at any prices they cost at least the least price of a choice, and no plan is feasible
/// where there is none.
pub fn plans_are_choices()
    ensures { PlansAreChoices }
{
    must_start_holds();
    lots_hold();
}
