// A slot of a schedule.

/// The time that a resource works on the lot of an item in a period. Resources, periods and items are counted
/// from 1, and times from the start of the period, in time units of the resource.
#[derive(Clone, Copy, Debug, PartialEq, Eq, Drop)]
pub struct Slot {
    /// The resource.
    pub resource: u32,
    /// The period.
    pub period: u32,
    /// The item.
    pub item: u32,
    /// When it begins.
    pub start: u64,
    /// When it ends.
    pub end: u64,
}
