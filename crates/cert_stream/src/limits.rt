//! The limit of certificates' files, with its name.

/// Most bytes of a certificate's file: 2^63 - 1. So the number of a line, and that of a byte in the piece past the last
/// one, have 64 bits.
pub const MAX_BYTES: u64 = 9_223_372_036_854_775_807;
