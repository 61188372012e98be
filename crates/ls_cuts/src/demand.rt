// What is asked for in the first periods.
ghost use Rattle.std.specs.Prelude.{◌≡◌, ◌≤◌, length};
ghost use Rattle.echelon.specs.Views.{IsEchelonWithinBounds, asked_of_echelon};
ghost use Rattle.echelon.specs.declared.net.TheConstants.{MAX_ASKED};
ghost use Rattle.valid_inequalities.specs.Inequalities.{demand_between};

use echelon::EchelonItem;

// What an echelon is asked for up to the end of a period.
pub(crate) fn demand_to(echelon: &EchelonItem, l: u32) -> u128
    requires within { IsEchelonWithinBounds echelon.now }
    requires high { l ≤ length echelon.now.demand.items }
    ensures value { result ≡ demand_between (asked_of_echelon echelon.now) 1 l }
    ensures small { result ≤ MAX_ASKED }
{
    let mut sum = 0u128;
    for period in 1..l + 1 {
        sum += echelon.demand[period as usize - 1];
    }
    sum
}
