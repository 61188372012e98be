// Laws about price rows, each the contract of a function that does nothing.
ghost use Rattle.facility_form.specs.Laws.{PriceRowsHold};

use echelon_rows::{cost_rows_hold, echelons_go, priced_is_net};
use valid_inequalities::price_holds;

/// The price rows of an echelon hold at every feasible plan in which it balances, whatever the prices are.
pub fn price_rows_hold()
    ensures { PriceRowsHold }
{
    echelons_go();
    cost_rows_hold();
    priced_is_net();
    price_holds();
}
