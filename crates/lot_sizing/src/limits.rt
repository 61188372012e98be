//! The limits within which problems are planned, each with one name.

/// Most items of a problem.
pub const MAX_ITEMS: u32 = 40;
/// Most periods of a problem, and of an item by itself.
pub const MAX_PERIODS: u32 = 120;
/// Most resources of a problem.
pub const MAX_RESOURCES: u32 = 20;
/// Most bill lines of a problem, those of all items together.
pub const MAX_BILL_LINES: u32 = 400;
/// Most bytes of a name.
pub const MAX_NAME: usize = 32;
/// The largest demand, cost, capacity, time, opening stock, required end stock and lot: a billion.
pub const MAX_AMOUNT: u64 = 1_000_000_000;
/// The largest bound of an end stock.
pub const MAX_END_STOCK: u64 = 2_000_000_000;
/// Most units of a component in one unit of an item.
pub const MAX_QUANTITY: u64 = 1_000_000;
/// The longest lead time, in periods.
pub const MAX_LEAD: u32 = 60;
/// The largest total of an item, and the largest weight of an item in another.
pub const MAX_TOTAL: u64 = 1_000_000_000_000;
