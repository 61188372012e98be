// What numbers of groups are found by.
use crate::prices::GroupPrices;
use late_starts::OnTime;
use lot_model::Instance;
use must_start::MustStart;

/// A model, what must have been started and what is on time in it, and prices.
#[derive(Clone, Copy)]
pub(crate) struct Given<'a> {
    pub(crate) instance: &'a Instance,
    pub(crate) started: &'a MustStart,
    pub(crate) on_time: &'a OnTime,
    pub(crate) prices: &'a GroupPrices,
}
