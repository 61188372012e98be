//! Items by themselves, and with what they go into.
//!
//! Family: single items. It stands on `lot_sizing`, `bill` and `lot_model`; the recursions, the cuts, the
//! proofs and the search stand on it.
//!
//! An `Explosion` has the weights of an instance's items, and an order in which each stands before its
//! components. `lead_free` tells whether an item and all that it goes into arrive when they are
//! started; `echelon_of` gives what is asked of such an item and of all items that it goes into, an
//! `EchelonItem`; `net_of` gives what remains to be made for it in each period once its opening stock
//! is used up, and what is left of that.
//! A `SingleItem` is what remains to be made of one item in each period once its opening stock is
//! used up, with its costs. A recursion answers `Blocks`: a least cost, which period serves which
//! positions, and the potentials that show that no plan costs less. The definitions of `lot_sizing`
//! say what a net plan is, what it costs and when potentials prove a floor; `single_of_item` reads a
//! `SingleItem` in their words. `single_of` makes one of an item of an uncoupled instance, and
//! `positions` lists its periods with a net demand.
#![tactic(auto)]

mod alone;
mod explosion;
mod laws;
mod net;
mod single;
mod whole;

pub use alone::single_of;
pub use explosion::Explosion;
pub use laws::explosions_are_one;
pub use lot_sizing::Block;
pub use net::{EchelonItem, MAX_ASKED, Net, is_echelon_within_bounds, net_of};
pub use single::{Blocks, SingleItem, is_within_bounds, positions};
pub use whole::{echelon_of, lead_free};
