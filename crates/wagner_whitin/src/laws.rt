//! What `solve` rests on, and its plain form.
ghost use Rattle.std.specs.Prelude.{IfOk, IsNone};
ghost use Rattle.lot_sizing.specs.Single.{IsWithinBounds};
ghost use Rattle.echelon.specs.Views.{single_of_item};
ghost use Rattle.wagner_whitin.specs.Lines.{LinesArePotentials};
ghost use Rattle.wagner_whitin.specs.Solution.{IsSolution};

use crate::solving::solve_over_servers;
use echelon::{Blocks, SingleItem};
use std::alloc::{AllocError, Global};

/// Where each potential is the least of the lines that have begun, no block costs less than the
/// potentials rise over it (Wagelmans, Van Hoesel and Kolen 1992).
pub fn lines_are_potentials()
    ensures law { LinesArePotentials }
{}

/// What `solve` finds, by the recursion over servers, for comparison. Of several cheapest ways it may take
/// another one.
///
/// It takes time in the number of positions times that of periods, and memory in the number of periods.
/// The one error is that memory runs out.
pub fn solve_plain(alloc: Global, single: &SingleItem) -> Result<Blocks, AllocError>
    requires within { IsWithinBounds (single_of_item single.now) }
    requires no_backlog { IsNone single.now.back }
    ensures solution { IfOk result (IsSolution (single_of_item single.now)) }
{
    solve_over_servers(alloc, single)
}
