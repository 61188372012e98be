// Reduced costs of setups and quantities.
ghost use Rattle.std.specs.Prelude.{◌≡◌, ◌↔◌, ◌≤◌, ◌<ℤ◌, pos, length, map, Err, IfOk, IsTrue, MatchOption};
ghost use Rattle.lot_sizing.specs.declared.limits.TheConstants.{MAX_PERIODS};
ghost use Rattle.must_start.specs.Rows.{row_in};
ghost use Rattle.quantity_dp.specs.declared.limits.TheConstants.{MAX_PRICE};
ghost use Rattle.reduced_groups.specs.declared.prices.PriceFault.TheVariants.{Large, Negative};
ghost use Rattle.reduced_groups.specs.Prices.{ArePricesFor, AreSmall, HasRow, IsFirstLarge};

use lot_model::Instance;
use quantity_dp::MAX_PRICE;
use std::marker::Model;

/// Why a reduced cost can't be the price of a column of a group.
#[derive(Clone, Copy, Debug, PartialEq, Eq)]
pub enum PriceFault {
    /// It is below 0.
    Negative,
    /// It is above `MAX_PRICE`.
    Large,
}

fn is_negative(reduced: i128) -> bool
    ensures { IsTrue result ↔ (reduced <ℤ pos 0) }
{
    reduced < 0
}

/// The reduced cost of a column as the price of it in a group: the same number.
pub fn price_of(reduced: i128) -> Result<u128, PriceFault>
    ensures value { IfOk result (λ price. (pos price ≡ reduced) × (price ≤ MAX_PRICE)) }
    ensures negative { (result ≡ Err Negative) ↔ (reduced <ℤ pos 0) }
    ensures large { (result ≡ Err Large) ↔ (pos MAX_PRICE <ℤ reduced) }
{
    if is_negative(reduced) {
        return Err(PriceFault::Negative);
    }
    let price = reduced.unsigned_abs();
    if price > MAX_PRICE {
        return Err(PriceFault::Large);
    }
    Ok(price)
}

/// The prices of the setups and quantities of all items: their reduced costs, where none is below 0.
#[derive(Debug, Drop)]
pub struct GroupPrices {
    // a row for each item, with an entry for each period
    setups: Vec<Vec<u128>>,
    units: Vec<Vec<u128>>,
}

impl Model for GroupPrices {
    ghost use Rattle.std.specs.Prelude.{map};
    ghost use Rattle.reduced_groups.specs.Prices.{PriceLists};

    ghost Value = { PriceLists };

    ghost view = { λ a. record {
      setups = map (λ v. v.items) a.setups.items;
      units = map (λ v. v.items) a.units.items;
    } };
}

impl GroupPrices {
    /// The prices of setups, and of units: of each a row for each item with an entry for each period.
    pub fn new(setups: Vec<Vec<u128>>, units: Vec<Vec<u128>>) -> GroupPrices
        ensures setups { result.setups ≡ map (λ v. v.items) setups.items }
        ensures units { result.units ≡ map (λ v. v.items) units.items }
    {
        GroupPrices { setups, units }
    }

    /// Whether there is a row for each item of an instance, with an entry for each period.
    pub fn fits(&self, instance: &Instance) -> bool
        ensures { IsTrue result ↔ ArePricesFor instance.now self.now }
    {
        let items = instance.items() as usize;
        if self.setups.len() != items || self.units.len() != items {
            return false;
        }
        for item in 1..instance.items() + 1 {
            if !self.has_row(instance, item) {
                return false;
            }
        }
        true
    }

    // Whether an item has an entry for each period.
    fn has_row(&self, instance: &Instance, item: u32) -> bool
        requires low { 1 ≤ item }
        requires setups { item ≤ length self.now.setups }
        requires units { item ≤ length self.now.units }
        ensures { IsTrue result ↔ HasRow instance.now self.now item }
    {
        let periods = instance.periods() as usize;
        self.setups(item).len() == periods && self.units(item).len() == periods
    }

    /// The prices of the setups of an item, one for each period.
    pub fn setups(&self, item: u32) -> &[u128]
        requires low { 1 ≤ item }
        requires high { item ≤ length self.now.setups }
        ensures { result.now ≡ row_in self.now.setups item }
    {
        &self.setups[(item - 1) as usize]
    }

    /// The prices of the units of an item, one for each period.
    pub fn units(&self, item: u32) -> &[u128]
        requires low { 1 ≤ item }
        requires high { item ≤ length self.now.units }
        ensures { result.now ≡ row_in self.now.units item }
    {
        &self.units[(item - 1) as usize]
    }
}

/// The first period with a price above `MAX_PRICE`, and none exactly where there is none.
pub(crate) fn first_large(prices: &[u128]) -> Option<u32>
    requires { length prices.now ≤ MAX_PERIODS }
    ensures { MatchOption result (AreSmall prices.now) (IsFirstLarge prices.now) }
{
    for period in 1..prices.len() as u32 + 1 {
        if prices[(period - 1) as usize] > MAX_PRICE {
            return Some(period);
        }
    }
    None
}
