//! The limit of files, with its name.

/// The longest model or plan file that is read, in bytes: 2^24. No plan file that is written is longer.
pub const MAX_FILE: u64 = 16_777_216;
