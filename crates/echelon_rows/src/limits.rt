//! The limits of the numbers that cuts are made of, each with one name.

/// The largest price of a setup, a unit, a unit in stock or a unit owed.
pub const MAX_PRICE: u64 = 100_000_000_000;
/// The largest potential, and the most that setups of an echelon gain or its net demands are worth:
/// `MAX_ASKED` units at `MAX_PRICE` each.
pub const MAX_STEP: u128 = 1_000_000_000_000_000_000_000_000_000_000_000_000;
