//! The limits of a certificate's text, each with one name. That of divisors is `MAX_DIVISOR` of `round_cuts`.

/// The first version of texts, in which no part names a least lot or a late one.
pub const FIRST_CERT_VERSION: u32 = 1;
/// The first version of texts in which a part may name a least lot or a late one.
pub const LOTS_CERT_VERSION: u32 = 2;
/// The first version of texts with leaves over reduced costs.
pub const REDUCED_CERT_VERSION: u32 = 3;
/// The latest version of texts.
pub const MAX_CERT_VERSION: u32 = 3;
/// Most bytes of a line, its line feed not counted.
pub const MAX_LINE: usize = 16_384;
/// Most cuts of a certificate.
pub const MAX_CUTS: u32 = 20_000;
/// Most parts of a leaf.
pub const MAX_PARTS: u32 = 100_000;
/// Most lists of parts of a leaf.
pub const MAX_LISTS: u32 = 1_000;
/// Most groups of a leaf.
pub const MAX_GROUPS: u32 = 1_000;
/// Most parts of a cut by rounding.
pub const MAX_ROUND_PARTS: u32 = 1_000;
/// Most branches on the way to a leaf.
pub const MAX_BRANCHES: u32 = 2_000;

// The greatest numbers of 32, of 64 and of 127 bits.
pub(crate) const MOST_32: u128 = u32::MAX as u128;

pub(crate) const MOST_64: u128 = u64::MAX as u128;

pub(crate) const MOST_127: u128 = i128::MAX as u128;
