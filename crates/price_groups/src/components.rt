// Items of the bill, by numbers that may be those of none.
use lot_model::{Instance, Need};

/// The period in which a lot of an item arrives that is started in a period, and the last one where it comes later; the same period
/// where there is no such item.
pub fn arrival_of(instance: &Instance, item: u32, period: u32) -> u32 {
    if item < 1 || item > instance.items() {
        return period;
    }
    period
        .saturating_add(instance.lead(item))
        .min(instance.periods())
}

/// The components of an item; none where there is no such item.
pub fn components_of(instance: &Instance, item: u32) -> &[Need] {
    if item < 1 || item > instance.items() {
        return &[];
    }
    instance.needs(item)
}
