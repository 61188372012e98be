// What holds where the ranges are the whole ones.
ghost use Rattle.lp_root.specs.Root.{HasFigures};
ghost use Rattle.branching.specs.SearchWithin.{WholeIsProved};

use cert_meaning::{acceptance_is_one, accepted_is_true, cut_rows_are_one};
use lot_model::{Instance, an_instance_breaks_no_rule};

/// What is proved over the whole ranges is proved of all plans.
pub(crate) fn whole_is_proved(instance: &Instance)
    requires { HasFigures instance.now }
    ensures { WholeIsProved instance.now }
{
    acceptance_is_one();
    accepted_is_true();
    cut_rows_are_one();
    an_instance_breaks_no_rule(instance);
}
