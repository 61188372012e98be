// Rounds that improve prices.
ghost use Rattle.std.specs.Prelude.{◌≡◌, IfOk};

use crate::lots::Average;
use crate::slopes::Slopes;
use crate::valuing::Planning;
use integer_grids::numbers::{ONE, Rate, UNIT};
use price_items::{DualPrices, Loads, NodePricing, settle};
use std::alloc::{AllocError, Global};
use std::marker::Model;

// The whole step, by which the number would grow as much as it is to if no plan changed: steps are counted in parts of it.
const WHOLE_STEP: i128 = 1_000_000;

// The first step of rounds without an average of the node above, in parts of the whole step.
const ROOT_STEP: i128 = 500_000;

// The first step of rounds that begin with such an average, in the same parts.
const NODE_STEP: i128 = 50_000;

// The largest step, in the same parts.
const MOST_STEP: i128 = 2_000_000;

// The least step, in the same parts.
const LEAST_STEP: i128 = 1_000;

// How long a step is after a round by which the number grew, in hundredths of the one before.
const LONGER: i128 = 115;

// How long it is after `PATIENCE` rounds by which it didn't, in the same hundredths.
const SHORTER: i128 = 70;

// How long it is after a round in which the average missed nothing and the plans at the best prices took its place, in the
// same hundredths.
const HALVED: i128 = 50;

// After so many rounds without growth steps get shorter.
const PATIENCE: u32 = 4;

// The least weight of a plan in the average, in units of 1/`UNIT`: a twenty-fifth.
const LEAST_WEIGHT: i64 = 164;

// The largest weight of a plan in the average, in units of 1/`UNIT`: two fifths.
const MOST_WEIGHT: i64 = 1638;

// After so many rounds the costs are dropped on trial.
const TRIAL: u32 = 10;

/// Where no plan is known, the number of prices is taken to grow by one part of it in so many, a twentieth.
pub const GROWTH_PARTS: i128 = 20;

/// What rounds come to.
#[derive(Clone, Copy, Debug, PartialEq, Eq)]
pub enum Reached {
    /// All rounds were made.
    Open,
    /// The leaf of the best prices is expected to say as much as a plan at hand costs.
    Closed,
    /// The leaf of the best prices with all costs dropped is expected to say that there is no plan.
    Refuted,
}

/// The best prices of rounds, and the average of their single-item plans.
#[derive(Debug, Drop)]
pub struct Improved {
    /// The best prices.
    pub prices: DualPrices,
    /// The average of the single-item plans of the rounds.
    pub average: Average,
}

// What is given to all rounds.
#[derive(Clone, Copy)]
struct Given<'a> {
    alloc: Global,
    node: NodePricing<'a>,
    plan_cost: Option<u128>,
}

/// Rounds that improve prices (a volume method: Barahona and Anbil 2000).
///
/// Each round goes from the best prices so far in the direction in which the plans of the rounds, on the average, miss
/// the capacities and each other's demand, plans each item by itself at the new prices, and takes the plan into the
/// average. Nothing is claimed of what they find: a leaf of the prices is tested by who takes it.
#[derive(Debug, Drop)]
pub struct Rounds {
    best: DualPrices,
    // What the leaf of the best prices is expected to say, times the scale; None where that doesn't fit.
    number: Option<i128>,
    average: Average,
    // The plans at the best prices.
    best_plan: Average,
    step: i128,
    // Rounds without growth, and rounds since costs were dropped.
    stood: u32,
    since: u32,
    // Whether the best prices were tried with all costs dropped, which then refuted nothing.
    is_tried: bool,
    // Prices on trial, their plans, and directions at the average and at these plans.
    trial: DualPrices,
    plan: Average,
    slopes: Slopes,
    others: Slopes,
    loads: Loads,
}

impl Model for Rounds {
    ghost use Rattle.price_rounds.specs.declared.rounds.Improved.{Improved};

    ghost Value = { Improved };

    ghost view = { λ r. record { prices = r.best; average = r.average } };
}

// What a plan costs, times the scale, where there is one whose cost fits.
fn scaled(scale: u64, plan_cost: Option<u128>) -> Option<i128> {
    match i128::try_from(plan_cost?) {
        Ok(cost) => Some(cost.saturating_mul(i128::from(scale))),
        Err(_) => None,
    }
}

// A step that is so many hundredths of another one.
fn scaled_step(step: i128, hundredths: i128) -> i128 {
    step.saturating_mul(hundredths) / 100
}

// By how much the number is to grow: up to what the plan costs, but by no more than where none is known. Where the number
// doesn't fit it is the scale, as where the number is 0 and no plan is known.
fn gap_to(number: Option<i128>, scale: u64, plan_cost: Option<u128>) -> i128 {
    let Some(number) = number else {
        return i128::from(scale);
    };
    let near = (number.max(0) / GROWTH_PARTS).saturating_add(i128::from(scale));
    match scaled(scale, plan_cost) {
        Some(cost) => near.min(cost.saturating_sub(number)),
        None => near,
    }
}

// Whether a leaf of this number says as much as the plan costs; not so where there is no plan, or one of the two doesn't fit.
fn is_closed(number: Option<i128>, scale: u64, plan_cost: Option<u128>) -> bool {
    match (number, scaled(scale, plan_cost)) {
        (Some(number), Some(cost)) => number > cost.saturating_sub(i128::from(scale)),
        _ => false,
    }
}

// Whether prices of this number are better than others. Those whose number doesn't fit never are, and those whose number fits
// are better than they.
fn is_better(number: Option<i128>, other: Option<i128>) -> bool {
    match (number, other) {
        (Some(number), Some(other)) => number > other,
        (Some(_), None) => true,
        (None, _) => false,
    }
}

// The weight that makes a direction shortest, by its square and its products with the other one.
fn weight_of(square: i128, both: i128, other: i128) -> i64 {
    let apart = square
        .saturating_sub(both.saturating_mul(2))
        .saturating_add(other);
    let weight = Rate::new(square.saturating_sub(both), apart).of(UNIT);
    weight.max(LEAST_WEIGHT).min(MOST_WEIGHT)
}

impl Rounds {
    /// The state before the first round. `average` is that of the node above, where there is one: then the steps begin
    /// shorter. The error is that memory ran out.
    pub fn start(
        alloc: Global,
        node: NodePricing<'_>,
        prices: DualPrices,
        average: Option<Average>,
    ) -> Result<Rounds, AllocError>
        ensures prices { IfOk result (λ rounds. rounds.prices ≡ prices) }
    {
        let NodePricing {
            instance,
            pricing,
            ..
        } = node;
        let mut planning = Planning::new(alloc);
        let mut best_plan = Average::of(alloc, instance, pricing)?;
        let number = planning.value(node, &prices, &mut best_plan)?;
        let (average, step) = match average {
            Some(average) => (average, NODE_STEP),
            None => (best_plan.copy(alloc)?, ROOT_STEP),
        };
        Ok(Rounds {
            trial: prices.copy(alloc)?,
            best: prices,
            number,
            average,
            best_plan,
            step,
            stood: 0,
            since: 0,
            is_tried: false,
            plan: Average::of(alloc, instance, pricing)?,
            slopes: Slopes::zero(alloc, instance, pricing)?,
            others: Slopes::zero(alloc, instance, pricing)?,
            loads: Loads::new(alloc, instance, pricing)?,
        })
    }

    // The plan at the prices on trial enters the average, with the weight that makes the new direction shortest. The answer is
    // whether the plan's direction is still the old one.
    fn mix(&mut self, given: Given<'_>, square: i128) -> bool {
        self.others.write(given.node, &self.best, &self.plan);
        let both = self.slopes.dot(&self.others);
        let other = self.others.dot(&self.others);
        self.average.mix(&self.plan, weight_of(square, both, other));
        both >= 0
    }

    // The prices on trial are the best ones, or they aren't. Steps get longer where they may.
    fn take(&mut self, number: Option<i128>, may_grow: bool) {
        if is_better(number, self.number) {
            self.number = number;
            self.best.take_from(&self.trial);
            self.best_plan.take_from(&self.plan);
            self.is_tried = false;
            self.stood = 0;
            if may_grow {
                self.step = scaled_step(self.step, LONGER).min(MOST_STEP);
            }
        } else {
            self.stood = self.stood.saturating_add(1);
        }
        if self.stood >= PATIENCE {
            self.step = scaled_step(self.step, SHORTER).max(LEAST_STEP);
            self.stood = 0;
        }
    }

    // The prices on trial: the best ones, further in the direction of the average.
    fn try_prices(&mut self, given: Given<'_>, square: i128) {
        let gap = gap_to(self.number, self.best.scale, given.plan_cost);
        let part = gap.saturating_mul(ONE).saturating_mul(self.step) / WHOLE_STEP;
        self.slopes.go(&self.best, &mut self.trial, part, square);
        let NodePricing {
            instance,
            pricing,
            ..
        } = given.node;
        settle(instance, pricing, &mut self.trial, &mut self.loads);
    }

    // One round.
    fn round(&mut self, given: Given<'_>, planning: &mut Planning) -> Result<(), AllocError> {
        self.slopes.write(given.node, &self.best, &self.average);
        let square = self.slopes.dot(&self.slopes);
        if square == 0 {
            self.average.take_from(&self.best_plan);
            self.step = scaled_step(self.step, HALVED).max(LEAST_STEP);
            return Ok(());
        }
        self.try_prices(given, square);
        let number = planning.value(given.node, &self.trial, &mut self.plan)?;
        let goes_on = self.mix(given, square);
        self.take(number, goes_on);
        Ok(())
    }

    // Whether the best prices with all costs dropped refute that there is a plan.
    fn refutes(&mut self, given: Given<'_>, planning: &mut Planning) -> Result<bool, AllocError> {
        self.since = 0;
        if self.is_tried {
            return Ok(false);
        }
        self.is_tried = true;
        let NodePricing {
            instance,
            pricing,
            ..
        } = given.node;
        let free = self.best.dropped(given.alloc, instance, pricing)?;
        let number = planning.value(given.node, &free, &mut self.plan)?;
        let is_refuted = match number {
            Some(number) => number > 0,
            None => false,
        };
        self.is_tried = !is_refuted;
        Ok(is_refuted)
    }

    // What has been reached, where the costs are dropped on trial or not.
    fn reached(
        &mut self,
        given: Given<'_>,
        planning: &mut Planning,
        is_tried: bool,
    ) -> Result<Reached, AllocError> {
        if is_closed(self.number, self.best.scale, given.plan_cost) {
            return Ok(Reached::Closed);
        }
        if is_tried && self.refutes(given, planning)? {
            return Ok(Reached::Refuted);
        }
        Ok(Reached::Open)
    }

    /// Makes at most `count` rounds. They end early where the leaf of the best prices says as much as `plan_cost`, what a plan
    /// at hand costs, or where the same leaf without costs says that there is no plan. It can be called again, and goes
    /// on with steps and average as they are.
    ///
    /// The error is that memory ran out, and the state is then that after the rounds made. Each round takes time in the number
    /// of items times the square of that of the periods.
    pub fn go_on(
        &mut self,
        alloc: Global,
        node: NodePricing<'_>,
        plan_cost: Option<u128>,
        count: u32,
    ) -> Result<Reached, AllocError> {
        let given = Given {
            alloc,
            node,
            plan_cost,
        };
        let mut planning = Planning::new(alloc);
        for _ in 0..count {
            let is_time = self.since >= TRIAL;
            match self.reached(given, &mut planning, is_time)? {
                Reached::Open => {}
                end => return Ok(end),
            }
            self.round(given, &mut planning)?;
            self.since = self.since.saturating_add(1);
        }
        self.reached(given, &mut planning, true)
    }

    /// What the leaf of the best prices is expected to say, times the scale; None where that doesn't fit.
    pub fn number(&self) -> Option<i128> {
        self.number
    }

    /// The best prices.
    pub fn prices(&self) -> &DualPrices
        ensures { result.now ≡ self.now.prices }
    {
        &self.best
    }

    /// The average of the single-item plans of the rounds.
    pub fn average(&self) -> &Average
        ensures { result.now ≡ self.now.average }
    {
        &self.average
    }

    /// The best prices and the average.
    pub fn into_improved(self) -> Improved
        ensures { result ≡ self }
    {
        Improved {
            prices: self.best,
            average: self.average,
        }
    }
}
