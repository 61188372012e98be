//! What may be plugged into the search: traits of what proposes leaves and branches, of what proposes plans, and of what is told
//! of its nodes and passes and may end it.
//!
//! The search takes any of them, and what it promises holds for any. It judges each leaf, tests each cut, and branches on a place
//! only where that can be branched on. The clauses of a heuristic are that it puts nothing in the place of the best plan but a
//! feasible plan within the ranges that costs no more. Of what leaves say, and of how good plans are, nothing is promised.
//!
//! A `Proposer` is asked in this order. Once: `begin`. At each node that its leaf leaves open: `open`, then `improve` at most
//! `times` times, then `leaf`; `close` where the node stays open, and later `branch` with the note that `close` gave. A
//! `Heuristic` is asked `begin` and `at_start` once, `by_hint` with the proposer's `hint` after each time that `improve` leaves
//! something to do, and `at_node` where all setups of a node are chosen. A `Watch` is told of each node once its leaf is known and
//! of each pass over the tree, and is asked before each pass and each branch whether the search is to end. `Nothing` proposes
//! nothing, `()` watches nothing, `Unstopped` and `Limited` watch for another one.
//!
//! Family: search. It stands on `cert_lines` and `leaf_growth` for cuts and leaves, on `tree_search` and `node_domains` for
//! nodes and ranges, and on `incumbent` for the best plan; `branching` and `lotplan` take what is plugged in, and
//! `price_plugin` and `heur_plugin` are such.
#![tactic(auto)]

mod heuristic;
mod nothing;
mod proposer;
mod watch;

pub use heuristic::{Heuristic, Space};
pub use nothing::Nothing;
pub use proposer::{LeafWanted, OpenNode, Progress, Proposed, Proposer};
pub use watch::{Limited, Unstopped, Watch};
