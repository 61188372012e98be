// Prices of stock.
ghost use Rattle.std.specs.Prelude.{◌≤◌};
ghost use Rattle.lot_sizing.specs.Problem.{item_count};

use lot_model::Instance;

/// What a unit of an item in stock costs at the end of a period, less what its components would cost there.
pub(crate) fn echelon_hold(instance: &Instance, item: u32, period: u32) -> u64
    requires item_low { 1 ≤ item }
    requires item_high { item ≤ item_count instance.now }
    requires low { 1 ≤ period }
    requires high { period ≤ instance.now.periods }
{
    let mut price = instance.hold_cost(item, period);
    for need in instance.needs(item) {
        let component = instance.hold_cost(need.item, period);
        price = price.saturating_sub(component.saturating_mul(need.quantity));
    }
    price
}
