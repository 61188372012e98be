//! A search by branching, with a budget of nodes, of which plans and rows are no part.
//!
//! A `Guide` tells what each `Node` says: it proposes a leaf for it (`Proposal`), and a `Split` where the leaf
//! is left open. `search` branches until no leaf is open against the best plan, or the budget of nodes or of
//! `MAX_BRANCHES` branches on a path is used up, and gives the `Claim` that the leaves show, with the tree of leaves
//! that say so. Where it claims a bound, evidence was asked for at each leaf that says just this number.
//! `strip` gives the tree of a certificate. `open_place` and `middle` are for guides that branch in the middle
//! of a range, `is_below` compares costs, and `whole_is_measured` counts the choices of a whole problem.
//!
//! Family: search. It stands on `lin_rows`, whose columns are branched on, on `cert_lines` and `certificate`, whose
//! leaves and trees it gives, and on the sums of `lot_sizing`; `node_domains`, `incumbent`, `node_branching`,
//! `branching` and, in proofs alone, `lotplan` stand on it.
#![tactic(auto)]

mod asking;
mod choice;
mod costs;
mod counting;
mod growing;
mod laws;
mod limits;
mod node;
mod passes;
mod proposal;
mod rules;
mod searching;
mod settling;
mod side;
mod sought;
mod splitting;
mod stripping;

pub use choice::{middle, open_place};
pub use costs::is_below;
pub use laws::whole_is_measured;
pub use limits::Limits;
pub use node::{Node, Range};
pub use proposal::{Proposal, Split};
pub use rules::Guide;
pub use searching::search;
pub use sought::{Searched, Sought};
pub use stripping::strip;
