// A certificate.

use cert_lines::{Claim, Cut, Leaf};
use lin_rows::Column;
use std::boxed::Box;

/// A tree of branches.
#[derive(Debug, Drop)]
pub enum Tree {
    /// The range of a column is split.
    Branch {
        /// The column.
        column: Column,
        /// The greatest value of the low side.
        at: u64,
        /// The side where the column is at most that value.
        low: Box<Tree>,
        /// The side where it is greater.
        high: Box<Tree>,
    },
    /// The range is not split further.
    Leaf(Leaf),
}

/// A claim with its proof.
#[derive(Debug, Drop)]
pub struct Certificate {
    /// The version of its text, 1 to 3: in version 1 no part names a least lot or a late one, and only version 3 has
    /// leaves over reduced costs.
    pub version: u32,
    /// The claim.
    pub claim: Claim,
    /// The cuts, each made of base rows and earlier cuts.
    pub cuts: Vec<Cut>,
    /// The tree.
    pub tree: Tree,
}
