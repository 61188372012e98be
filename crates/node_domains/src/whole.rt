// What holds where the ranges are the whole ones.
ghost use Rattle.node_domains.specs.Within.{LieInWhole};

use cert_trees::plans_are_within;
use lot_model::{Instance, an_instance_breaks_no_rule};

/// Each feasible plan of an instance lies within the whole ranges: a law, and the function does nothing.
pub fn lie_in_whole(instance: &Instance)
    ensures { LieInWhole instance.now }
{
    plans_are_within();
    an_instance_breaks_no_rule(instance);
}
