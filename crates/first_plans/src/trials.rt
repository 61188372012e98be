// Changes of the wanted setups that are tried.
ghost use Rattle.std.specs.Prelude.{◌≡◌, ◌≤◌};
ghost use Rattle.lot_sizing.specs.Problem.{item_count};
ghost use Rattle.plan_rules.specs.Cells.{Fits};
ghost use Rattle.first_plans.specs.Trials.{IsTrial};

use lot_model::Instance;
use plan_rules::Grid;

/// A change of an item's wanted setups: a setup that is moved from one period to another, or where these are
/// one and the same, a setup that is put in or left out.
#[derive(Clone, Copy)]
pub struct Trial {
    pub item: u32,
    pub from: u32,
    pub to: u32,
    /// Whether its components' setups change along with it.
    pub along: bool,
}

// Changes the setups of one item.
fn change_item(_instance: &Instance, wanted: &mut Grid, item: u32, trial: Trial, setup: u64)
    requires wanted { Fits _instance.now wanted.old }
    requires trial { IsTrial _instance.now trial }
    requires low { 1 ≤ item }
    requires high { item ≤ item_count _instance.now }
    ensures { Fits _instance.now wanted.new }
{
    if trial.from == trial.to {
        wanted.set(item, trial.from, setup);
    } else if wanted.get(item, trial.from) == 1 {
        wanted.set(item, trial.from, 0);
        wanted.set(item, trial.to, 1);
    }
}

// Changes the setups of an item and of its components.
fn change_along(instance: &Instance, wanted: &mut Grid, trial: Trial, setup: u64)
    requires wanted { Fits instance.now wanted.old }
    requires trial { IsTrial instance.now trial }
    ensures { Fits instance.now wanted.new }
{
    for component in 1..instance.items() + 1 {
        if instance.weight(component, trial.item) > 0 {
            change_item(instance, wanted, component, trial, setup);
        }
    }
}

/// Whether a change changes something that another one doesn't: a setup that is moved stands there, and an
/// item whose components go along has some.
pub(crate) fn is_worth_trying(instance: &Instance, wanted: &Grid, trial: Trial) -> bool
    requires wanted { Fits instance.now wanted.now }
    requires trial { IsTrial instance.now trial }
{
    let stands = trial.from == trial.to || wanted.get(trial.item, trial.from) == 1;
    stands && !(trial.along && instance.needs(trial.item).is_empty())
}

/// Changes the wanted setups.
pub fn change(instance: &Instance, wanted: &mut Grid, trial: Trial)
    requires wanted { Fits instance.now wanted.old }
    requires trial { IsTrial instance.now trial }
    ensures { Fits instance.now wanted.new }
{
    let setup = if wanted.get(trial.item, trial.from) == 1 {
        0
    } else {
        1
    };
    if trial.along {
        change_along(instance, wanted, trial, setup);
    } else {
        change_item(instance, wanted, trial.item, trial, setup);
    }
}
