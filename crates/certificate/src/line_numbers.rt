//! Numbers of lines in a certificate's text, each with one name. Lines are counted from 1.

/// The line of the claim.
pub const CLAIM_LINE: u64 = 2;
/// The line of the first cut, and where there is none that of the tree.
pub const FIRST_CUT_LINE: u64 = 4;
