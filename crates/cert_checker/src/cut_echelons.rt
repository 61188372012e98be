// The rows of cuts over the echelon of an item.
ghost use Rattle.std.specs.Prelude.{◌≡◌, ◌≤◌, [], IfErr, IfOk, IfSome, IsNone};
ghost use Rattle.lot_sizing.specs.declared.limits.TheConstants.{MAX_TOTAL};
ghost use Rattle.echelon.specs.Views.{net_of_all};
ghost use Rattle.echelon.specs.Weights.{IsExplosionOf};
ghost use Rattle.cert_lines.specs.Shapes.{BlockCut, LsCut, PriceCut, block_lists, price_lists};
ghost use Rattle.cert_checker.specs.Cuts.{HasItsColumns, HoldsAlways, IsCutEchelon, IsFaultOfCut, IsItem, IsNotLeadFree, IsRowOfCut, fault_on, rejected};

use crate::cut_forms::{has_block_form, has_ls_form, has_price_form};
use crate::{CheckFault, Rejected, Why};
use backlog_dp::block_row;
use cert_meaning::echelon_rows_are_one;
use echelon::{EchelonItem, Explosion, echelon_of, lead_free};
use facility_form::price_row;
use lin_rows::{CutFault, Potentials, Prices, Row, RowFault};
use lot_model::Instance;
use lot_sizing::weights_are_one;
use ls_cuts::ls_row;
use std::alloc::{AllocError, Global};

// The refusal of a cut on this line.
fn refused(line: u64, why: Why) -> CheckFault
    ensures { result ≡ rejected line why }
{
    CheckFault::Rejected(Rejected { line, why })
}

// What it means for a cut on this line that its lists make no row: a list has another length or a number is past
// its limit, or potentials rise by more than a block costs.
fn fault_on(line: u64, fault: CutFault) -> CheckFault
    ensures { result ≡ fault_on line fault }
{
    match fault {
        CutFault::Length | CutFault::TooLarge => refused(line, Why::Range),
        CutFault::Potential {
            first,
            last,
            server,
        } => refused(
            line,
            Why::Block {
                first,
                last,
                server,
            },
        ),
        CutFault::Sign => refused(line, Why::Sign),
        CutFault::Memory => CheckFault::Memory,
    }
}

/// The echelon of an item, over which cuts of the item have their rows; none where the item isn't lead-free, so that it
/// has no cut. The explosion is that of the instance. The error is that memory ran out.
///
/// It is the same whichever weights of the bill are taken, and balances in every feasible plan (`some`); its net demands
/// add to at most the largest total that an item may have (`net`).
pub fn echelon_for(
    alloc: Global,
    instance: &Instance,
    explosion: &Explosion,
    item: u32,
) -> Result<Option<EchelonItem>, AllocError>
    requires explosion { IsExplosionOf instance.now explosion.now }
    requires item { IsItem instance.now item }
    ensures some { IfOk result (λ found. IfSome found (IsCutEchelon instance.now item)) }
    ensures item { IfOk result (λ found. IfSome found (λ e. e.item ≡ item)) }
    ensures net { IfOk result (λ found. IfSome found (λ e. net_of_all e ≤ MAX_TOTAL)) }
    ensures none { IfOk result (λ found. IsNone found → IsNotLeadFree instance.now item) }
{
    weights_are_one();
    if !lead_free(instance, explosion, item) {
        return Ok(None);
    }
    let echelon = echelon_of(alloc, instance, explosion, item)?;
    Ok(Some(echelon))
}

// The row of an (l,S) cut.
pub(crate) fn ls_cut(
    alloc: Global,
    instance: &Instance,
    explosion: &Explosion,
    item: u32,
    last: u32,
    chosen: &[bool],
    line: u64,
) -> Result<Row, CheckFault>
    requires explosion { IsExplosionOf instance.now explosion.now }
    ensures row { IfOk result (IsRowOfCut instance.now [] (LsCut item last chosen.now)) }
    ensures holds { IfOk result (HoldsAlways instance.now) }
    ensures columns_exist { IfOk result (HasItsColumns instance.now) }
    ensures fault { IfErr result (IsFaultOfCut instance.now [] (LsCut item last chosen.now) line) }
{
    if !has_ls_form(instance, item, last, chosen) {
        return Err(refused(line, Why::Range));
    }
    let Some(echelon) = echelon_for(alloc, instance, explosion, item)? else {
        return Err(refused(line, Why::Lead));
    };
    echelon_rows_are_one();
    match ls_row(alloc, &echelon, last, chosen) {
        Ok(row) => Ok(row),
        Err(RowFault::Memory) => Err(CheckFault::Memory),
        // The last period is one of the echelon, and each up to it has a mark.
        Err(RowFault::NoSuchRow) => unreachable!(),
    }
}

// The row of a price cut.
pub(crate) fn price_cut(
    alloc: Global,
    instance: &Instance,
    explosion: &Explosion,
    item: u32,
    prices: &Prices,
    line: u64,
) -> Result<Row, CheckFault>
    requires explosion { IsExplosionOf instance.now explosion.now }
    ensures row { IfOk result (IsRowOfCut instance.now []
        (PriceCut item (price_lists prices.now))) }
    ensures holds { IfOk result (HoldsAlways instance.now) }
    ensures columns_exist { IfOk result (HasItsColumns instance.now) }
    ensures fault { IfErr result (IsFaultOfCut instance.now []
        (PriceCut item (price_lists prices.now)) line) }
{
    if !has_price_form(instance, item, prices) {
        return Err(refused(line, Why::Range));
    }
    let Some(echelon) = echelon_for(alloc, instance, explosion, item)? else {
        return Err(refused(line, Why::Lead));
    };
    echelon_rows_are_one();
    match price_row(alloc, &echelon, prices) {
        Ok(row) => Ok(row),
        Err(fault) => Err(fault_on(line, fault)),
    }
}

// The row of a block cut.
pub(crate) fn block_cut(
    alloc: Global,
    instance: &Instance,
    explosion: &Explosion,
    item: u32,
    potentials: &Potentials,
    line: u64,
) -> Result<Row, CheckFault>
    requires explosion { IsExplosionOf instance.now explosion.now }
    ensures row { IfOk result (IsRowOfCut instance.now []
        (BlockCut item (block_lists potentials.now))) }
    ensures holds { IfOk result (HoldsAlways instance.now) }
    ensures columns_exist { IfOk result (HasItsColumns instance.now) }
    ensures fault { IfErr result (IsFaultOfCut instance.now []
        (BlockCut item (block_lists potentials.now)) line) }
{
    if !has_block_form(instance, item, potentials) {
        return Err(refused(line, Why::Range));
    }
    let Some(echelon) = echelon_for(alloc, instance, explosion, item)? else {
        return Err(refused(line, Why::Lead));
    };
    echelon_rows_are_one();
    match block_row(alloc, &echelon, potentials) {
        Ok(row) => Ok(row),
        Err(fault) => Err(fault_on(line, fault)),
    }
}
