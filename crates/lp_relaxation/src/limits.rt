//! The limits of a search's linear programs, each with one name.

/// Most pivots of a run in a search.
pub const MAX_PIVOTS: u32 = 2_000;
/// Most cells of a tableau that is solved. A cell takes 32 bytes.
pub const MAX_CELLS: u64 = 2_000_000;
/// Most cuts of a round.
pub const MAX_ROUND_CUTS: u32 = 1_000_000;
/// Most columns and rows of a round's program, both together.
pub const MAX_ROUND_SIZE: u32 = 3_000_000;
