// The least costs of lists of one, two and three levels.
ghost use Rattle.std.specs.Prelude.{◌≡◌, ◌+◌, ◌<◌, ◌≤◌, ℕ, length, IfOk};
ghost use Rattle.chain_dp.specs.Lists.{HaveWidth};
ghost use Rattle.chain_dp.specs.Costs.{IsCostOfOne, IsCostOfThree, IsCostOfTwo};

use crate::lists::{LevelLists, Row};
use crate::pairs::{least_of_ends, pair_firsts, pair_plane};
use crate::planes::all_planes;
use crate::spare::Spare;
use crate::states::narrow_cost;
use crate::stretches::{stretch_row, stretch_rows};
use std::alloc::{AllocError, Global};

/// The least cost of one level.
pub(crate) fn cost_of_one(
    alloc: Global,
    spare: &mut Spare,
    level: &LevelLists,
) -> Result<u128, AllocError>
    requires level { HaveWidth (length level.now.asked.items) level.now }
    requires some { 2 ≤ length level.now.asked.items }
    ensures { IfOk result (IsCostOfOne level.now) }
{
    let row = stretch_row(alloc, spare, level, 0)?;
    let cost = row.get(level.asked.len() - 1);
    spare.keep(row)?;
    Ok(cost)
}

/// The least cost of two levels, the lower one first.
pub(crate) fn cost_of_two(
    alloc: Global,
    spare: &mut Spare,
    low: &LevelLists,
    mid: &LevelLists,
) -> Result<u128, AllocError>
    requires low { HaveWidth (length mid.now.asked.items) low.now }
    requires mid { HaveWidth (length mid.now.asked.items) mid.now }
    requires some { 2 ≤ length mid.now.asked.items }
    ensures { IfOk result (IsCostOfTwo low.now mid.now) }
{
    let lots = mid.asked.len() - 1;
    let stretches = stretch_rows(alloc, spare, low, lots)?;
    let firsts = pair_firsts(alloc, spare, lots)?;
    let plane = pair_plane(alloc, spare, low, mid, &stretches, &firsts)?;
    let cost = least_of_ends(low, mid, &stretches, &plane, lots);
    spare.keep_rows(stretches)?;
    spare.keep_rows(firsts)?;
    spare.keep_rows(plane)?;
    Ok(cost)
}

/// The least cost of three levels, the lowest first.
pub(crate) fn cost_of_three(
    alloc: Global,
    spare: &mut Spare,
    low: &LevelLists,
    mid: &LevelLists,
    top: &LevelLists,
) -> Result<u128, AllocError>
    requires low { HaveWidth (length top.now.asked.items) low.now }
    requires mid { HaveWidth (length top.now.asked.items) mid.now }
    requires top { HaveWidth (length top.now.asked.items) top.now }
    requires some { 2 ≤ length top.now.asked.items }
    ensures { IfOk result (IsCostOfThree low.now mid.now top.now) }
{
    let lots = top.asked.len() - 1;
    let stretches = stretch_rows(alloc, spare, low, lots)?;
    let short = narrow_cost(alloc, low, mid, top, &stretches)?;
    if short < u64::MAX {
        spare.keep_rows(stretches)?;
        return Ok(u128::from(short));
    }
    let planes = all_planes(alloc, spare, low, mid, top, &stretches)?;
    let cost = least_of_ends(low, mid, &stretches, &planes[lots].rows, lots);
    spare.keep_rows(stretches)?;
    spare.keep_planes(planes)?;
    Ok(cost)
}
