// Which (l,S) rows the least point of a round violates.
ghost use Rattle.std.specs.Prelude.{◌≡◌, ◌≤◌, IfOk, length};
ghost use Rattle.echelon.specs.Weights.{IsExplosionOf};
ghost use Rattle.lin_rows.specs.Points.{read_at};
ghost use Rattle.cert_lines.specs.Shapes.{LsCut};
ghost use Rattle.cert_checker.specs.Cuts.{IsCutEchelon, IsItem};
ghost use Rattle.lp_root.specs.RootSteps.{IsRootCut, PutsAll, PutsAt, PutsEchelon, PutsItem};

use cert_checker::echelon_for;
use cert_meaning::echelon_rows_are_one;
use certificate::Cut;
use echelon::{EchelonItem, Explosion};
use lin_rows::{Point, Row, RowFault};
use lot_model::Instance;
use lp_relaxation::rows_are_small;
use ls_cuts::{SepFault, ls_row, separate};
use std::alloc::{AllocError, Global};

// Cuts with their rows.
#[derive(Debug, Drop)]
pub(crate) struct RootCuts {
    pub(crate) cuts: Vec<Cut>,
    pub(crate) rows: Vec<Row>,
}

// The last period l of (l,S) rows, with the item of whose echelon they are.
#[derive(Clone, Copy, Debug)]
pub(crate) struct LastPeriod {
    pub(crate) item: u32,
    pub(crate) l: u32,
}

// The row of an l and a set of periods up to it.
fn row_of_set(
    alloc: Global,
    instance: &Instance,
    echelon: &EchelonItem,
    l: u32,
    chosen: &[bool],
) -> Result<Row, AllocError>
    requires echelon { IsCutEchelon instance.now echelon.now.item echelon.now }
    requires low { 1 ≤ l }
    requires high { l ≤ instance.now.periods }
    requires size { length chosen.now ≡ l }
    ensures { IfOk result (IsRootCut instance.now (LsCut echelon.now.item l chosen.now)) }
{
    rows_are_small();
    echelon_rows_are_one();
    match ls_row(alloc, echelon, l, chosen) {
        Ok(row) => Ok(row),
        Err(RowFault::Memory) => Err(AllocError),
        // The last period is one of the echelon, and each up to it has a mark.
        Err(RowFault::NoSuchRow) => unreachable!(),
    }
}

// Puts the cut of the row of an l that the point violates most after others, if it violates one. The
// answer is whether all steps of the separation fit.
fn separate_at(
    alloc: Global,
    instance: &Instance,
    echelon: &EchelonItem,
    point: &Point,
    l: u32,
    list: &mut RootCuts,
) -> Result<bool, AllocError>
    requires echelon { IsCutEchelon instance.now echelon.now.item echelon.now }
    requires low { 1 ≤ l }
    requires high { l ≤ instance.now.periods }
    ensures { IfOk result (λ fits.
        PutsAt instance.now echelon.now (read_at point.now) l fits list.old list.new) }
{
    match separate(alloc, echelon, point, l) {
        Ok(Some(chosen)) => {
            list.rows
                .push(row_of_set(alloc, instance, echelon, l, &chosen)?)?;
            list.cuts.push(Cut::Ls {
                item: echelon.item,
                last: l,
                chosen,
            })?;
            Ok(true)
        }
        Ok(None) => Ok(true),
        Err(SepFault::Passed128) => Ok(false),
        Err(SepFault::Memory) => Err(AllocError),
    }
}

// Separates the (l,S) inequalities of an echelon for each l. The answer is the first l at which some step doesn't fit.
fn separate_echelon(
    alloc: Global,
    instance: &Instance,
    echelon: &EchelonItem,
    point: &Point,
    list: &mut RootCuts,
) -> Result<Option<u32>, AllocError>
    requires echelon { IsCutEchelon instance.now echelon.now.item echelon.now }
    ensures { IfOk result (λ end.
        PutsEchelon instance.now echelon.now (read_at point.now) end list.old list.new) }
{
    for l in 1..instance.periods() + 1 {
        if !separate_at(alloc, instance, echelon, point, l, list)? {
            return Ok(Some(l));
        }
    }
    Ok(None)
}

// Separates the (l,S) inequalities of an item's echelon; an item that isn't lead-free has none.
fn separate_item(
    alloc: Global,
    instance: &Instance,
    explosion: &Explosion,
    point: &Point,
    item: u32,
    list: &mut RootCuts,
) -> Result<Option<u32>, AllocError>
    requires explosion { IsExplosionOf instance.now explosion.now }
    requires item { IsItem instance.now item }
    ensures { IfOk result (λ end.
        PutsItem instance.now (read_at point.now) item end list.old list.new) }
{
    match echelon_for(alloc, instance, explosion, item)? {
        Some(echelon) => separate_echelon(alloc, instance, &echelon, point, list),
        None => Ok(None),
    }
}

// The cuts of all items, each put after the others. The answer is the first item and last period
// at which some step of the separation doesn't fit.
pub(crate) fn separate_all(
    alloc: Global,
    instance: &Instance,
    explosion: &Explosion,
    point: &Point,
    list: &mut RootCuts,
) -> Result<Option<LastPeriod>, AllocError>
    requires explosion { IsExplosionOf instance.now explosion.now }
    ensures { IfOk result (λ end. PutsAll instance.now (read_at point.now) end list.old list.new) }
{
    for item in 1..instance.items() + 1 {
        if let Some(l) = separate_item(alloc, instance, explosion, point, item, list)? {
            return Ok(Some(LastPeriod { item, l }));
        }
    }
    Ok(None)
}
