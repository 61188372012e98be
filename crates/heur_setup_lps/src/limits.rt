//! The limits of the programs, each with one name.

/// Most items times periods of a model whose programs are solved.
pub const MAX_GRID_CELLS: u32 = 400;
/// Most cells of a program that is solved.
pub const MAX_PROGRAM_CELLS: u64 = 500_000;
/// Most times that a program with given setups is solved, each time but the first with a further bound of a quantity that
/// wasn't whole.
pub(crate) const MAX_TIMES: u32 = 12;
/// Most times of that at a step of a walk, and at a node of a plunge: many of them are made.
pub(crate) const MAX_STEP_TIMES: u32 = 6;
