// Laws about block rows, each the contract of a function that does nothing.
ghost use Rattle.backlog_dp.specs.Laws.{BlockRowsHold, SolutionsAreAllowed};

use echelon_rows::{cost_rows_hold, echelons_go, priced_is_net};
use valid_inequalities::block_holds;

/// The block rows of an echelon hold at every feasible plan in which it balances, whatever the prices are.
pub fn block_rows_hold()
    ensures { BlockRowsHold }
{
    echelons_go();
    cost_rows_hold();
    priced_is_net();
    block_holds();
}

/// What `solve` finds for an echelon's item by itself makes a block row with its prices: its potentials are
/// one for each position, none past the largest potential, and rise over no block by more than it costs. So
/// `block_row` answers a row for them, unless memory runs out.
pub fn solutions_are_allowed()
    ensures { SolutionsAreAllowed }
{}
