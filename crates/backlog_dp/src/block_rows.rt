// The block row of an echelon.
ghost use Rattle.std.specs.Prelude.{◌≡◌, ◌≤◌, ◌+◌, ◌*◌, ◌↔◌, [], false, length, pos, IfErr, IfOk, IsTrue};
ghost use Rattle.lot_sizing.specs.Sums.{sum_to};
ghost use Rattle.lot_sizing.specs.Problem.{entry};
ghost use Rattle.lot_sizing.specs.Single.{ArePotentials, position_count};
ghost use Rattle.lot_sizing.specs.Net.{left_after, net_in};
ghost use Rattle.lot_sizing.specs.declared.limits.TheConstants.{MAX_PERIODS};
ghost use Rattle.echelon.specs.Views.{HasEach, IsEchelonWithinBounds, asked_of_echelon};
ghost use Rattle.echelon.specs.declared.net.TheConstants.{MAX_ASKED};
ghost use Rattle.lin_rows.specs.Rows.{HoldsIn};
ghost use Rattle.lin_rows.specs.declared.fault.CutFault.TheVariants.{Memory};
ghost use Rattle.echelon_rows.specs.Rows.{echelon_in, single_with};
ghost use Rattle.echelon_rows.specs.Plans.{AreColumnsOf, AtPlansOf};
ghost use Rattle.backlog_dp.specs.Broken.{IsFirstBrokenOrNone};
ghost use Rattle.backlog_dp.specs.BlockRow.{AreSmall, HaveLengths, HavePrices, IsAllowed, IsBlockFault, block_right, block_row_of, block_terms, single_by, priced_by};

use crate::broken::first_broken;
use crate::costs::{UnitPrices, periods_of};
use crate::laws::block_rows_hold;
use echelon::{Block, EchelonItem, net_of};
use echelon_rows::{
    are_prices, are_steps, cost_terms_are_terms, cost_terms_of, held_of, nets_are_small,
};
use lin_rows::{CutFault, Potentials, Row, Term};
use std::alloc::{AllocError, Global};
use wagner_whitin::last_potential;

// The numbers of a list in more bits.
fn wide(alloc: Global, list: &[u64]) -> Result<Vec<u128>, AllocError>
    ensures { IfOk result (λ found. found.items ≡ list.now) }
{
    let mut found = Vec::with_capacity(alloc, list.len())?;
    for place in 0..list.len() {
        found.push(u128::from(list[place]))?;
    }
    Ok(found)
}

// What setups, units, stocks and backlogs cost, as terms.
fn terms_of(
    alloc: Global,
    echelon: &EchelonItem,
    potentials: &Potentials,
) -> Result<Vec<Term>, AllocError>
    requires within { IsEchelonWithinBounds echelon.now }
    requires lengths { HavePrices (length echelon.now.demand.items) potentials.now }
    requires small { AreSmall potentials.now }
    ensures { IfOk result (λ terms. terms.items
        ≡ block_terms (echelon_in echelon.now) potentials.now) }
{
    let setups = wide(alloc, &potentials.setup)?;
    let terms = cost_terms_of(
        alloc,
        echelon,
        &setups,
        &potentials.unit,
        &potentials.hold,
        &potentials.back,
    )?;
    Ok(terms)
}

// The last potential, and the holding of what is left.
fn right_of(echelon: &EchelonItem, left: &[u128], potentials: &Potentials) -> i128
    requires within { IsEchelonWithinBounds echelon.now }
    requires left { HasEach (length echelon.now.demand.items)
        (left_after (asked_of_echelon echelon.now)) left.now }
    requires lengths { HavePrices (length echelon.now.demand.items) potentials.now }
    requires steps { length potentials.now.steps.items
        ≡ position_count (priced_by (echelon_in echelon.now) potentials.now) }
    requires small { AreSmall potentials.now }
    ensures { result ≡ pos (block_right (echelon_in echelon.now) potentials.now) }
{
    nets_are_small();
    let last = last_potential(&potentials.steps);
    let held = held_of(left, &potentials.hold);
    (last + held) as i128
}

// The row of prices and potentials, which is not tested.
fn row_by(
    alloc: Global,
    echelon: &EchelonItem,
    left: &[u128],
    potentials: &Potentials,
) -> Result<Row, AllocError>
    requires within { IsEchelonWithinBounds echelon.now }
    requires left { HasEach (length echelon.now.demand.items)
        (left_after (asked_of_echelon echelon.now)) left.now }
    requires lengths { HaveLengths (echelon_in echelon.now) potentials.now }
    requires small { AreSmall potentials.now }
    ensures { IfOk result (λ row. row ≡ block_row_of (echelon_in echelon.now) potentials.now) }
{
    cost_terms_are_terms();
    let terms = terms_of(alloc, echelon, potentials)?;
    let right = right_of(echelon, left, potentials);
    Ok(Row::new(terms, right, false))
}

// Whether each list of prices has an entry for each period.
fn have_prices(potentials: &Potentials, periods: usize) -> bool
    ensures { IsTrue result ↔ HavePrices periods potentials.now }
{
    potentials.setup.len() == periods
        && potentials.unit.len() == periods
        && potentials.hold.len() == periods
        && potentials.back.len() == periods
}

// Whether there is a potential for each position.
fn have_steps(alloc: Global, net: &[u128], steps: &[u128]) -> Result<bool, AllocError>
    requires { length net.now ≤ MAX_PERIODS }
    ensures { IfOk result (λ found.
        IsTrue found ↔ (length steps.now
        ≡ position_count (single_with net.now [] [] [] [] false))) }
{
    let periods = periods_of(alloc, net)?;
    let found = periods.len() == steps.len();
    Ok(found)
}

// Whether there is a potential for each position of the echelon, whose lists of prices have their lengths.
fn have_lengths(
    alloc: Global,
    echelon: &EchelonItem,
    net: &[u128],
    potentials: &Potentials,
) -> Result<bool, AllocError>
    requires within { IsEchelonWithinBounds echelon.now }
    requires net { HasEach (length echelon.now.demand.items) (net_in (asked_of_echelon echelon.now))
        net.now }
    requires prices { HavePrices (length echelon.now.demand.items) potentials.now }
    ensures { IfOk result (λ found.
        IsTrue found ↔ HaveLengths (echelon_in echelon.now) potentials.now) }
{
    let found = have_steps(alloc, net, &potentials.steps)?;
    Ok(found)
}

// Whether no price and no potential is past the largest one.
fn are_small(potentials: &Potentials) -> bool
    ensures { IsTrue result ↔ AreSmall potentials.now }
{
    are_prices(&potentials.setup)
        && are_prices(&potentials.unit)
        && are_prices(&potentials.hold)
        && are_prices(&potentials.back)
        && are_steps(&potentials.steps)
}

// The first block over which the potentials rise by more than it costs.
fn broken_block(
    alloc: Global,
    net: &[u128],
    potentials: &Potentials,
    backlogged: bool,
) -> Result<Option<Block>, AllocError>
    requires periods { length net.now ≤ MAX_PERIODS }
    requires net { sum_to (length net.now) (entry net.now) ≤ MAX_ASKED }
    requires lengths { HavePrices (length net.now) potentials.now }
    requires steps { length potentials.now.steps.items
        ≡ position_count (single_by net.now potentials.now backlogged) }
    requires small { AreSmall potentials.now }
    ensures { IfOk result (IsFirstBrokenOrNone (single_by net.now potentials.now backlogged)
        potentials.now.steps.items) }
{
    let rates = &UnitPrices {
        unit: &potentials.unit,
        hold: &potentials.hold,
        back: &potentials.back,
        backlogged,
    };
    let broken = first_broken(alloc, net, &potentials.setup, rates, &potentials.steps)?;
    Ok(broken)
}

// Refuses potentials that rise over a block by more than it costs.
fn test_blocks(
    alloc: Global,
    echelon: &EchelonItem,
    net: &[u128],
    potentials: &Potentials,
) -> Result<(), CutFault>
    requires within { IsEchelonWithinBounds echelon.now }
    requires net { HasEach (length echelon.now.demand.items) (net_in (asked_of_echelon echelon.now))
        net.now }
    requires lengths { HaveLengths (echelon_in echelon.now) potentials.now }
    requires small { AreSmall potentials.now }
    ensures blocks { IfOk result (λ _.
        ArePotentials (priced_by (echelon_in echelon.now) potentials.now)
        potentials.now.steps.items) }
    ensures fault { IfErr result (IsBlockFault (echelon_in echelon.now) potentials.now) }
{
    nets_are_small();
    let broken = broken_block(alloc, net, potentials, echelon.backlogged)?;
    match broken {
        Some(block) => Err(CutFault::Potential {
            first: block.first,
            last: block.last,
            server: block.server,
        }),
        None => Ok(()),
    }
}

/// The block row of an echelon: what setups, units, stocks and backlogs cost by the prices is at least the last
/// potential and the holding of what is left of the opening stock (Pochet and Wolsey; the potentials are a dual
/// solution of the single-item recursion).
///
/// Potentials, one for each position, may rise over any block of positions by no more than what a setup and
/// serving the block's positions cost, for any period that may serve them: it may lie outside the block, and
/// later than its first position only where the echelon may be owed. What `solve` finds for the item with these
/// prices is always allowed (`laws::solutions_are_allowed`).
///
/// The row holds at every feasible plan of any problem whose lead-free item has this echelon (`holds`), and has
/// only columns of such a problem (`columns_exist`). `Length` comes exactly where a list of prices hasn't an
/// entry for each period or there isn't a potential for each position; `TooLarge` exactly where the lists have
/// these entries and a price is past `MAX_PRICE` or a potential past `MAX_STEP`; `Potential` exactly where neither
/// is so and the potentials rise over some block by more than it costs: the first one by its first position, then
/// its last one, then its server. So where all is allowed only memory can be wanting (`allowed_is_made`).
///
/// It takes time in the number of periods times that of periods, positions and items; where a block is broken,
/// in the number of periods times the square of that of the positions.
pub fn block_row(
    alloc: Global,
    echelon: &EchelonItem,
    potentials: &Potentials,
) -> Result<Row, CutFault>
    requires within { IsEchelonWithinBounds echelon.now }
    ensures row { IfOk result (λ row. row ≡ block_row_of (echelon_in echelon.now) potentials.now) }
    ensures holds { IfOk result (λ row. AtPlansOf echelon.now (λ p. HoldsIn p row)) }
    ensures columns_exist { IfOk result (λ row. AreColumnsOf echelon.now row.terms) }
    ensures allowed { IfOk result (λ _. IsAllowed (echelon_in echelon.now) potentials.now) }
    ensures fault { IfErr result (IsBlockFault (echelon_in echelon.now) potentials.now) }
    ensures allowed_is_made { IfErr result (λ fault.
        IsAllowed (echelon_in echelon.now) potentials.now → fault ≡ Memory) }
{
    if !have_prices(potentials, echelon.demand.len()) {
        return Err(CutFault::Length);
    }
    let found = net_of(alloc, echelon)?;
    if !have_lengths(alloc, echelon, &found.net, potentials)? {
        return Err(CutFault::Length);
    }
    if !are_small(potentials) {
        return Err(CutFault::TooLarge);
    }
    test_blocks(alloc, echelon, &found.net, potentials)?;
    block_rows_hold();
    cost_terms_are_terms();
    let row = row_by(alloc, echelon, &found.left, potentials)?;
    Ok(row)
}
