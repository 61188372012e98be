//! The limit of pages, with its name.

/// The longest page, in bytes: 2^24.
pub const MAX_PAGE: usize = 16_777_216;
