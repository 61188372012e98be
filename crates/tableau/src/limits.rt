//! The limit of a linear program's size.

/// Most columns and rows of a program, both together. The constants, the columns, the rows' slacks and the cost are numbered
/// in this order from 0 on, and the cost's number is at most 2^32 - 1.
pub const MAX_PROGRAM_SIZE: u32 = 4_294_967_294;
