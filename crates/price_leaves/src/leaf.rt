// Leaves of prices.
ghost use Rattle.std.specs.Prelude.{◌≡◌, ◌≤◌, IfOk, IfSome};
ghost use Rattle.lot_sizing.specs.Problem.{item_count};
ghost use Rattle.price_leaves.specs.Proposals.{IsProposal};

use crate::cutting::item_cut;
use crate::writable::tested;
use cert_lines::{Cut, Part};
use integer_grids::IntegerGrid;
use integer_grids::numbers::{at, less, of_amount, times};
use lin_rows::RowName;
use lot_model::Instance;
use node_setups::{Fixed, Held};
use price_items::{Costs, DualPrices, Item, Pricing, Serving};
use std::alloc::{AllocError, Global};

/// Block cuts, and the parts of a leaf that takes each of them once.
#[derive(Debug, Drop)]
pub struct Priced {
    /// Block cuts of items, in rising order.
    pub cuts: Vec<Cut>,
    /// The parts: the cuts by their numbers, capacities, balances, largest end stocks and bounds of the path.
    pub parts: Vec<Part>,
    /// The denominator of a leaf that bounds the cost: the scale of its prices.
    pub den: u128,
}

/// A leaf while it is made.
#[derive(Debug, Drop)]
pub(crate) struct Making {
    cuts: Vec<Cut>,
    parts: Vec<Part>,
    // How often the balance of each item and period is taken, and the largest end stock of each item.
    balances: IntegerGrid,
    ends: IntegerGrid,
    // Whether all cuts could be made.
    is_whole: bool,
}

impl Making {
    pub(crate) fn new(alloc: Global, instance: &Instance) -> Result<Making, AllocError> {
        Ok(Making {
            cuts: Vec::new(alloc),
            parts: Vec::new(alloc),
            balances: IntegerGrid::zero(alloc, instance.items(), instance.periods())?,
            ends: IntegerGrid::zero(alloc, instance.items(), 1)?,
            is_whole: true,
        })
    }

    // A row is taken so many times, if it is at all.
    pub(crate) fn put(&mut self, row: RowName, times: i64) -> Result<(), AllocError> {
        if times != 0 {
            self.parts.push(Part {
                row,
                times: i128::from(times),
            })?;
        }
        Ok(())
    }

    // A cut is taken once, by its number.
    pub(crate) fn put_cut(&mut self, cut: Cut, first_cut: u32) -> Result<(), AllocError> {
        match u32::try_from(self.cuts.len()) {
            Ok(before) => {
                let number = first_cut.saturating_add(before);
                self.put(RowName::Cut(number), 1)?;
                self.cuts.push(cut)?;
            }
            Err(_) => {
                self.is_whole = false;
            }
        }
        Ok(())
    }

    // Some cut can't be made.
    pub(crate) fn fail(&mut self) {
        self.is_whole = false;
    }

    // The cuts and the parts, where all cuts could be made.
    pub(crate) fn into_lines(self) -> Option<(Vec<Cut>, Vec<Part>)> {
        if self.is_whole {
            Some((self.cuts, self.parts))
        } else {
            None
        }
    }

    // The rows of all items in an echelon, by which prices of its stock were moved to units.
    fn move_back(&mut self, item: &Item, costs: &Costs) {
        let mut other = 0u32;
        for weight in item.weights.iter() {
            other = other.saturating_add(1);
            let weight = of_amount(*weight);
            self.balances
                .add_times(other, &costs.shift, less(0, weight));
            self.ends.add_times(other, &[costs.lift], weight);
        }
    }

    // The bounds of the path on an item's setups: what the cut's setup lacks or has too much.
    pub(crate) fn put_fixed(
        &mut self,
        fees: &[i64],
        setups: &[i64],
        fixed: &Fixed,
        item: u32,
    ) -> Result<(), AllocError> {
        let mut period = 0u32;
        for fee in fees {
            period = period.saturating_add(1);
            match fixed.get(item, period) {
                Held::Free => {}
                Held::AtLeastOne(number) => {
                    self.put(RowName::Path(number), *fee)?;
                }
                Held::AtMostZero(number) => {
                    let more = less(at(setups, period), *fee).max(0);
                    self.put(RowName::Path(number), more)?;
                }
            }
        }
        Ok(())
    }

    // The capacities of a resource, as often as its time is priced.
    fn put_capacity(
        &mut self,
        instance: &Instance,
        prices: &DualPrices,
        resource: u32,
    ) -> Result<(), AllocError> {
        for period in 1..instance.periods() + 1 {
            let price = prices.capacity.get(resource, period);
            self.put(RowName::Capacity(resource, period), price)?;
        }
        Ok(())
    }

    // The capacities of all resources, as often as their time is priced.
    fn put_capacities(
        &mut self,
        instance: &Instance,
        prices: &DualPrices,
    ) -> Result<(), AllocError> {
        for resource in 1..instance.resources() + 1 {
            self.put_capacity(instance, prices, resource)?;
        }
        Ok(())
    }

    // The balances of an item, and its largest end stock.
    fn put_balances(&mut self, instance: &Instance, item: u32) -> Result<(), AllocError> {
        for period in 1..instance.periods() + 1 {
            let number = self.balances.get(item, period);
            self.put(RowName::Balance(item, period), number)?;
        }
        let number = self.ends.get(item, 1);
        self.put(RowName::EndMax(item), number)
    }

    // The rows that are taken for all items together.
    fn put_rows(&mut self, instance: &Instance, prices: &DualPrices) -> Result<(), AllocError> {
        self.put_capacities(instance, prices)?;
        for item in 1..instance.items() + 1 {
            self.put_balances(instance, item)?;
        }
        Ok(())
    }
}

// The lists in which items are planned, one after the other.
#[derive(Debug, Drop)]
struct Planning {
    costs: Costs,
    serving: Serving,
}

// What leaves are made of: the items of an instance, prices, and what a path says of setups.
#[derive(Clone, Copy)]
struct Given<'a> {
    instance: &'a Instance,
    pricing: &'a Pricing,
    prices: &'a DualPrices,
    fixed: &'a Fixed,
}

// The cut of an item and what goes with it; the bounds of its setups alone where there is nothing to cut.
fn put_item(
    alloc: Global,
    given: Given<'_>,
    planning: &mut Planning,
    number: u32,
    first_cut: u32,
    making: &mut Making,
) -> Result<(), AllocError>
    requires low { 1 ≤ number }
    requires high { number ≤ item_count given.instance.now }
{
    let costs = &mut planning.costs;
    let Some(item) = given.pricing.get(number) else {
        costs.write_fees(given.instance, given.prices, number)?;
        return making.put_fixed(&costs.fee, &[], given.fixed, number);
    };
    costs.write(given.instance, item, given.prices, given.fixed)?;
    planning.serving.serve_all(item, costs)?;
    match item_cut(alloc, item, costs, &planning.serving)? {
        Some(cut) => making.put_cut(cut, first_cut)?,
        None => {
            making.is_whole = false;
        }
    }
    making.move_back(item, costs);
    making.put_fixed(&costs.fee, &costs.setup, given.fixed, number)
}

// The leaf of prices.
fn leaf_at(
    alloc: Global,
    instance: &Instance,
    given: Given<'_>,
    first_cut: u32,
) -> Result<Option<Priced>, AllocError>
    requires same { given.instance.now ≡ instance.now }
    ensures { IfOk result (λ found. IfSome found (IsProposal instance.now)) }
{
    let mut making = Making::new(alloc, instance)?;
    let mut planning = Planning {
        costs: Costs::new(alloc),
        serving: Serving::new(alloc),
    };
    for number in 1..instance.items() + 1 {
        put_item(alloc, given, &mut planning, number, first_cut, &mut making)?;
    }
    making.put_rows(instance, given.prices)?;
    if !making.is_whole {
        return Ok(None);
    }
    let den = given.prices.scale.max(1);
    Ok(tested(instance, making.cuts, making.parts, den))
}

/// The leaf of prices at a node whose path fixes some setups: a block cut of each lead-free item, by its costs with the
/// prices of time, stock and backlog, and parts that take each cut once, the capacities as often as they are priced, and
/// the bounds of the path so that the fixed setups are counted.
///
/// With the denominator `den` the parts are those of a leaf by linear duality. A proposal is tested by who takes it:
/// nothing is claimed of what it says, but that its lines are within the limits of certificates (`IsProposal`). None
/// where a number is past its limit. The parts name the cuts `first_cut`, `first_cut + 1` and so on: that is one more than
/// the number of cuts before these, and the bounds by their numbers in `fixed`.
///
/// The error is that memory ran out. It takes time in the square of the number of items times that of the periods, and in the
/// number of items times the square of that of the periods.
pub fn priced_leaf(
    alloc: Global,
    instance: &Instance,
    pricing: &Pricing,
    prices: &DualPrices,
    fixed: &Fixed,
    first_cut: u32,
) -> Result<Option<Priced>, AllocError>
    ensures { IfOk result (λ found. IfSome found (IsProposal instance.now)) }
{
    let given = Given {
        instance,
        pricing,
        prices,
        fixed,
    };
    leaf_at(alloc, instance, given, first_cut)
}

/// The leaf of the same prices with all costs dropped. Its parts are those of a leaf by Farkas' lemma, which says that
/// there is no plan where the resources can't hold what is asked for; the denominator is 1. All else is as in
/// `priced_leaf`.
pub fn dropped_leaf(
    alloc: Global,
    instance: &Instance,
    pricing: &Pricing,
    prices: &DualPrices,
    fixed: &Fixed,
    first_cut: u32,
) -> Result<Option<Priced>, AllocError>
    ensures { IfOk result (λ found. IfSome found (IsProposal instance.now)) }
{
    let free = prices.dropped(alloc, instance, pricing)?;
    priced_leaf(alloc, instance, pricing, &free, fixed, first_cut)
}
