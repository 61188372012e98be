//! The least cost of an item by itself, with or without backlog, and the rows that its potentials give.
//!
//! Family: cuts. It stands on `lot_sizing`, `echelon`, `wagner_whitin`, `lin_rows`, `valid_inequalities` and
//! `echelon_rows`; `uncoupled` plans items with it, and the checker of certificates and the search make block
//! rows of potentials.
//!
//! `solve` answers a cheapest way to serve an item, with potentials that prove it. Where backlog is allowed, a
//! later period may serve an earlier one at the price of owing it, and the recursion of `wagner_whitin` over
//! servers is taken; without backlog its recursion by lines, which is faster.
//!
//! `block_row` makes the row of an echelon for prices and potentials: plans cost at least the last potential. It
//! tests that the potentials rise over no block of positions by more than the block costs. For each server one
//! pass over the positions decides that, in which the start is kept from which a block may reach least
//! (`rising`); only where a block is broken are they all tried, to name the first one (`broken`). `laws` says
//! that the rows hold, and that what `solve` finds is allowed.
#![tactic(auto)]

ghost use Rattle.std.specs.Prelude.{IfOk};
ghost use Rattle.lot_sizing.specs.Single.{IsWithinBounds};
ghost use Rattle.echelon.specs.Views.{single_of_item};
ghost use Rattle.wagner_whitin.specs.Solution.{IsSolution};

mod block_rows;
mod broken;
mod costs;
pub mod laws;
mod rising;

pub use block_rows::block_row;
pub use echelon::{Block, Blocks, SingleItem};
use std::alloc::{AllocError, Global};

/// A cheapest way to serve an item, with backlog where it has backlog costs, and the potentials that
/// prove it: they meet the condition for all servers, later ones included.
///
/// With backlog it takes time in the number of positions times that of periods, without in the number of
/// periods times its logarithm; and memory in the number of periods. The one error is that memory runs out.
pub fn solve(alloc: Global, single: &SingleItem) -> Result<Blocks, AllocError>
    requires within { IsWithinBounds (single_of_item single.now) }
    ensures solution { IfOk result (IsSolution (single_of_item single.now)) }
{
    match &single.back {
        Some(_) => wagner_whitin::solve_over_servers(alloc, single),
        None => wagner_whitin::solve(alloc, single),
    }
}
