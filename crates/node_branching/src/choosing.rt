// On which setup a node is branched: some are tried with a few rounds of prices on both sides. Nothing is claimed of it.
use crate::gains::{Gains, Side};
use lot_model::Instance;
use price_leaves::{
    Average, Fixed, GROWTH_PARTS, Held, NodePricing, ONE, Pricing, Reached, Rounds,
};
use std::alloc::{AllocError, Global};

// How many setups are tried.
const TRIALS: usize = 8;

/// A setup of an item in a period on which a node may be branched, and what a branch there is worth.
#[derive(Clone, Copy, Debug, PartialEq, Eq)]
pub struct Choice {
    pub(crate) item: u32,
    pub(crate) period: u32,
    pub(crate) worth: i128,
}

/// What a branch on the setup of an item in a period is worth by averages: how far it is from whole, times what it costs.
pub(crate) fn worth_of(average: &Average, cost: u64, item: u32, period: u32) -> i128 {
    let often = average.setup(item, period);
    let apart = often.min(ONE.saturating_sub(often));
    apart.saturating_mul(i128::from(cost).saturating_add(1))
}

// The first place in a list of a choice that is worth least; None in an empty list.
fn least_place(list: &[Choice]) -> Option<usize> {
    let mut least: Option<(usize, i128)> = None;
    for (place, choice) in list.iter().enumerate() {
        match least {
            Some((_, worth)) if worth <= choice.worth => {}
            _ => least = Some((place, choice.worth)),
        }
    }
    match least {
        Some((place, _)) => Some(place),
        None => None,
    }
}

// Puts a choice to a list, in the place of the one that is worth least where there is no room.
fn put(list: &mut Vec<Choice>, choice: Choice) -> Result<(), AllocError> {
    if list.len() < TRIALS {
        list.push(choice)?;
        return Ok(());
    }
    let Some(least) = least_place(list) else {
        return Ok(());
    };
    if let Some(other) = list.get_mut(least) {
        if other.worth < choice.worth {
            *other = choice;
        }
    }
    Ok(())
}

// Puts the free setups of an item to a list whose averages aren't whole.
fn put_item(
    instance: &Instance,
    average: &Average,
    fixed: &Fixed,
    item: u32,
    list: &mut Vec<Choice>,
) -> Result<(), AllocError> {
    if item < 1 || item > instance.items() {
        return Ok(());
    }
    let mut period = 0u32;
    for cost in instance.setup_costs(item) {
        period = period.saturating_add(1);
        let worth = worth_of(average, *cost, item, period);
        if worth > 0 && fixed.get(item, period) == Held::Free {
            put(
                list,
                Choice {
                    item,
                    period,
                    worth,
                },
            )?;
        }
    }
    Ok(())
}

// The setups on which a branch is worth most by averages.
fn worthiest(
    alloc: Global,
    instance: &Instance,
    average: &Average,
    fixed: &Fixed,
) -> Result<Vec<Choice>, AllocError> {
    let mut list = Vec::new(alloc);
    for item in 1..instance.items() + 1 {
        put_item(instance, average, fixed, item, &mut list)?;
    }
    Ok(list)
}

/// What the branches of a node are tried with.
#[derive(Clone, Copy)]
pub struct Trials<'a> {
    /// The instance.
    pub instance: &'a Instance,
    /// What prices of it are made with.
    pub pricing: &'a Pricing,
    /// The rounds of the node.
    pub rounds: &'a Rounds,
    /// What the best plan costs, in money, if there is one.
    pub cost: Option<u128>,
    /// How many rounds are made on each side.
    pub count: u32,
    /// The number of the next bound on the node's path, counted from 1.
    pub number: u32,
}

// By how much one number is more than another; by nothing where one of them doesn't fit.
fn growth(before: Option<i128>, after: Option<i128>) -> i128 {
    match (before, after) {
        (Some(before), Some(after)) => after.saturating_sub(before),
        _ => 0,
    }
}

// By how much the number of the node grows on a side of a branch, within a few rounds; by no more than `most`.
fn gain(
    alloc: Global,
    trials: Trials<'_>,
    most: i128,
    fixed: &mut Fixed,
    choice: Choice,
    held: Held,
) -> Result<i128, AllocError> {
    let Trials { rounds, cost, .. } = trials;
    let prices = rounds.prices().copy(alloc)?;
    let average = rounds.average().copy(alloc)?;
    fixed.hold(choice.item, choice.period, held);
    let node = NodePricing {
        instance: trials.instance,
        pricing: trials.pricing,
        fixed,
    };
    let mut side = Rounds::start(alloc, node, prices, Some(average))?;
    let reached = side.go_on(alloc, node, cost, trials.count)?;
    fixed.hold(choice.item, choice.period, Held::Free);
    match reached {
        Reached::Open => {
            let more = growth(rounds.number(), side.number());
            Ok(more.max(0).min(most))
        }
        _ => Ok(most),
    }
}

// How far the setup of a choice is from a side, times its cost.
fn apart_of(trials: Trials<'_>, choice: Choice, side: Side) -> i128 {
    let Choice { item, period, .. } = choice;
    let often = trials.rounds.average().setup(item, period);
    let apart = match side {
        Side::Low => often,
        Side::High => ONE.saturating_sub(often),
    };
    apart.saturating_mul(cost_at(trials.instance, item, period).saturating_add(1))
}

// What a setup costs in a period, in money.
fn cost_at(instance: &Instance, item: u32, period: u32) -> i128 {
    if item < 1 || item > instance.items() {
        return 0;
    }
    let costs = instance.setup_costs(item);
    match costs.get((period as usize).wrapping_sub(1)) {
        Some(cost) => i128::from(*cost),
        None => 0,
    }
}

// What a side of a choice gains: by what it gained before, or else by rounds on trial.
fn side_gain(
    alloc: Global,
    trials: Trials<'_>,
    fixed: &mut Fixed,
    gains: &mut Gains,
    choice: Choice,
    side: Side,
) -> Result<i128, AllocError> {
    let most = most_gain(trials.rounds, trials.cost);
    let apart = apart_of(trials, choice, side);
    if let Some(gain) = gains.expected(choice.item, choice.period, side, apart) {
        return Ok(gain.max(0).min(most));
    }
    let held = match side {
        Side::Low => Held::AtMostZero(trials.number),
        Side::High => Held::AtLeastOne(trials.number),
    };
    let gained = gain(alloc, trials, most, fixed, choice, held)?;
    gains.remember(choice.item, choice.period, side, apart, gained);
    Ok(gained)
}

// The choice with what both sides gain, as a product.
fn tried(
    alloc: Global,
    trials: Trials<'_>,
    fixed: &mut Fixed,
    gains: &mut Gains,
    choice: Choice,
) -> Result<Choice, AllocError> {
    let half = i128::from(trials.rounds.prices().scale);
    let low = side_gain(alloc, trials, fixed, gains, choice, Side::Low)?;
    let high = side_gain(alloc, trials, fixed, gains, choice, Side::High)?;
    let low = low.saturating_mul(2).saturating_add(half);
    let high = high.saturating_mul(2).saturating_add(half);
    Ok(Choice {
        item: choice.item,
        period: choice.period,
        worth: low.saturating_mul(high),
    })
}

// By how much the number of rounds may grow until it says as much as a plan costs; a part of it without a plan. It is the scale
// at least, and where the number doesn't fit.
fn most_gain(rounds: &Rounds, cost: Option<u128>) -> i128 {
    let scale = i128::from(rounds.prices().scale);
    let Some(number) = rounds.number() else {
        return scale;
    };
    let most = match cost {
        Some(cost) => match i128::try_from(cost) {
            Ok(cost) => cost.saturating_mul(scale).saturating_sub(number),
            Err(_) => number / GROWTH_PARTS,
        },
        None => number / GROWTH_PARTS,
    };
    most.max(scale)
}

/// The free setup on which a branch gains most, of some that are tried by a few rounds of prices on both sides; None where all
/// averages are whole.
///
/// `fixed` are the setups that the node's path chooses, which are as before in the end. What sides gain is remembered in `gains`: a side that has been tried often enough isn't tried again. The error
/// is that memory ran out.
pub fn choice_for(
    alloc: Global,
    trials: Trials<'_>,
    fixed: &mut Fixed,
    gains: &mut Gains,
) -> Result<Option<Choice>, AllocError> {
    let average = trials.rounds.average();
    let list = worthiest(alloc, trials.instance, average, fixed)?;
    let mut best: Option<Choice> = None;
    for choice in list.iter() {
        let found = tried(alloc, trials, fixed, gains, *choice)?;
        match best {
            Some(other) if other.worth >= found.worth => {}
            _ => best = Some(found),
        }
    }
    Ok(best)
}
