// The recursions, over servers and by lines.
ghost use Rattle.std.specs.Prelude.{◌≡◌, ◌+◌, ◌<◌, ◌≤◌, ◌*◌, ◌^◌, ℕ, IfOk, IsNone};
ghost use Rattle.lot_sizing.specs.Single.{IsWithinBounds, period_count};
ghost use Rattle.echelon.specs.Views.{single_of_item};
ghost use Rattle.wagner_whitin.specs.Solution.{IsSolution};

use crate::counting::Steps;
use crate::digits::binary_digits;
use crate::lines::LineSums;
use crate::{line_table, table};
use echelon::{Blocks, SingleItem};
use std::alloc::{AllocError, Global};
use std::marker::Brand;
use std::sync::ledger::{Blank, Ledger};

/// A cheapest way to serve an item, with or without backlog, with the potentials that prove it.
///
/// It takes time in the number of positions times that of periods, and memory in the number of periods.
/// The one error is that memory runs out.
pub fn solve_over_servers(alloc: Global, single: &SingleItem) -> Result<Blocks, AllocError>
    requires within { IsWithinBounds (single_of_item single.now) }
    ensures solution { IfOk result (IsSolution (single_of_item single.now)) }
{
    let table = table::least_costs(alloc, single)?;
    table::solution(alloc, single, table)
}

/// A cheapest way to serve an item without backlog, with the potentials that prove it, by the lower hull
/// of the servers' lines (Wagelmans, Van Hoesel and Kolen 1992). A step is one comparison of two lines.
///
/// It takes at most `4 * T * (D + 1)` steps, where `D` is the number of binary digits of the number `T`
/// of periods, also where memory runs out, which is the one error; and memory in the number of periods.
pub fn solve_counted<L: Ledger>(
    alloc: Global,
    single: &SingleItem,
    steps: &mut Steps<L>,
) -> Result<Blocks, AllocError>
    requires within { IsWithinBounds (single_of_item single.now) }
    requires no_backlog { IsNone single.now.back }
    ensures solution { IfOk result (IsSolution (single_of_item single.now)) }
    ensures steps { (d : ℕ) → period_count (single_of_item single.now) < 2 ^ d
        → steps.new ≤ steps.old + 4 * period_count (single_of_item single.now) * (d + 1) }
{
    let needed = echelon::positions(alloc, single)?;
    let sums = LineSums::of(alloc, single, &needed)?;
    let level = binary_digits(single.net.len() as u32);
    let table = line_table::least_costs(alloc, single, &sums, &needed, level, steps)?;
    table::solution(alloc, single, table)
}

// The same, with a count that nobody reads.
fn solve_uncounted<L: Ledger>(
    alloc: Global,
    single: &SingleItem,
    blank: Blank,
) -> Result<Blocks, AllocError>
    requires name { blank.name ≡ L.name }
    requires parts { blank.parts ≡ L.parts }
    requires some { 0 < L.parts }
    requires within { IsWithinBounds (single_of_item single.now) }
    requires no_backlog { IsNone single.now.back }
    ensures solution { IfOk result (IsSolution (single_of_item single.now)) }
{
    let mut steps = Steps::<L>::new(blank);
    solve_counted(alloc, single, &mut steps)
}

/// A cheapest way to serve an item without backlog, with the potentials that prove it: `solve_counted`,
/// with a count that is thrown away and takes neither time nor memory.
///
/// It takes time in the number of periods times its logarithm, and memory in the number of periods. The one
/// error is that memory runs out.
pub fn solve(alloc: Global, single: &SingleItem) -> Result<Blocks, AllocError>
    requires within { IsWithinBounds (single_of_item single.now) }
    requires no_backlog { IsNone single.now.back }
    ensures solution { IfOk result (IsSolution (single_of_item single.now)) }
{
    solve_uncounted::<Brand>(alloc, single, Blank::new(1))
}
