// Whether the numbers and lists of a cut are in their ranges, but for what its echelon asks of them.
ghost use Rattle.std.specs.Prelude.{◌↔◌, IsTrue};
ghost use Rattle.lot_sizing.specs.Problem.{IsSeries};
ghost use Rattle.echelon_rows.specs.Rows.{ArePriced};
ghost use Rattle.echelon_rows.specs.declared.limits.TheConstants.{MAX_PRICE};
ghost use Rattle.cert_lines.specs.Shapes.{block_lists, price_lists};
ghost use Rattle.cert_checker.specs.Cuts.{IsBlockForm, IsItem, IsLsForm, IsPriceForm};

use echelon_rows::{are_prices, are_steps};
use lin_rows::{Potentials, Prices};
use lot_model::Instance;

// Whether the instance has an item of this number.
fn is_item(instance: &Instance, item: u32) -> bool
    ensures { IsTrue result ↔ IsItem instance.now item }
{
    item >= 1 && item <= instance.items()
}

// Whether a list has an entry for each period, none past the largest price.
fn is_price_list(list: &[u64], periods: u32) -> bool
    ensures { IsTrue result ↔ IsSeries periods MAX_PRICE list.now }
{
    list.len() == periods as usize && are_prices(list)
}

// Whether the prices of units, stocks and backlogs each have an entry for each period, none past the largest price.
fn are_priced(unit: &[u64], hold: &[u64], back: &[u64], periods: u32) -> bool
    ensures { IsTrue result ↔ ArePriced periods unit.now hold.now back.now }
{
    is_price_list(unit, periods) && is_price_list(hold, periods) && is_price_list(back, periods)
}

// Whether an (l,S) cut is over an item, up to a period, with a mark for each period up to that one.
pub(crate) fn has_ls_form(instance: &Instance, item: u32, last: u32, chosen: &[bool]) -> bool
    ensures { IsTrue result ↔ IsLsForm instance.now item last chosen.now }
{
    is_item(instance, item)
        && last >= 1
        && last <= instance.periods()
        && chosen.len() == last as usize
}

// Whether a price cut is over an item, with a price in each list for each period.
pub(crate) fn has_price_form(instance: &Instance, item: u32, prices: &Prices) -> bool
    ensures { IsTrue result ↔ IsPriceForm instance.now item (price_lists prices.now) }
{
    let periods = instance.periods();
    is_item(instance, item)
        && is_price_list(&prices.price, periods)
        && are_priced(&prices.unit, &prices.hold, &prices.back, periods)
}

// Whether a block cut is over an item, with a price in each list for each period, and with no potential past the
// largest one.
pub(crate) fn has_block_form(instance: &Instance, item: u32, potentials: &Potentials) -> bool
    ensures { IsTrue result ↔ IsBlockForm instance.now item (block_lists potentials.now) }
{
    let periods = instance.periods();
    is_item(instance, item)
        && is_price_list(&potentials.setup, periods)
        && are_priced(
            &potentials.unit,
            &potentials.hold,
            &potentials.back,
            periods,
        )
        && are_steps(&potentials.steps)
}
