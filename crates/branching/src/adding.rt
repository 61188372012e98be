// Cuts that are added while a search goes on.
ghost use Rattle.std.specs.Prelude.{◌≡◌, ◌<◌, true, OnOk, length};
ghost use Rattle.cert_lines.specs.declared.limits.TheConstants.{MAX_CUTS};
ghost use Rattle.cert_lines.specs.Line.{HasForm};
ghost use Rattle.cert_lines.specs.Shapes.{cut_first, cut_shape};
ghost use Rattle.plan_rules.specs.Rows.{IfFound};
ghost use Rattle.branching.specs.Adding.{IsBlockCut, IsNextRow};
ghost use Rattle.branching.specs.Knowing.{IsKnown, KnowsMoreRows};

use crate::guiding::Model;
use crate::knowing::Known;
use cert_checker::{CheckFault, cut_row_in};
use cert_lines::is_cut_line;
use cert_meaning::cut_rows_go_on;
use certificate::{Cut, MAX_CUTS};
use lin_rows::Row;
use std::alloc::{AllocError, Global};

// Whether a cut is one of blocks.
fn is_block(cut: &Cut) -> bool
    ensures { result ≡ true → IsBlockCut (cut_shape cut.now) }
{
    match cut {
        Cut::Block { .. } => true,
        _ => false,
    }
}

// The row of a block cut after those that are there; None where the checker refuses the cut.
fn next_row(
    alloc: Global,
    model: &Model,
    known: &Known,
    cut: &Cut,
) -> Result<Option<Row>, AllocError>
    requires known { IsKnown model.now known.now }
    requires block { IsBlockCut (cut_shape cut.now) }
    ensures { IfFound result (IsNextRow model.now.instance.now known.now.rows.items
        (cut_shape cut.now)) }
{
    match cut_row_in(alloc, model.instance, &model.explosion, &known.rows, cut, 0) {
        Ok(row) => Ok(Some(row)),
        Err(CheckFault::Memory) => Err(AllocError),
        Err(CheckFault::Rejected(_)) => Ok(None),
    }
}

// Puts a cut and its row behind those that are there.
fn push_cut(model: &Model, known: &mut Known, cut: Cut, row: Row) -> Result<(), AllocError>
    requires known { IsKnown model.now known.old }
    requires few { length known.old.cuts.items < MAX_CUTS }
    requires block { IsBlockCut (cut_shape cut) }
    requires form { HasForm (cut_first (cut_shape cut)) }
    requires row { IsNextRow model.now.instance.now known.old.rows.items (cut_shape cut) row }
    ensures { OnOk result (KnowsMoreRows model.now known.old known.new) }
{
    cut_rows_go_on();
    known.cuts.push(cut)?;
    known.rows.push(row)?;
    Ok(())
}

// Adds a cut with its row, if there is room and the checker takes it, and says whether it was added.
fn add_cut(alloc: Global, model: &Model, known: &mut Known, cut: Cut) -> Result<bool, AllocError>
    requires known { IsKnown model.now known.old }
    ensures { OnOk result (KnowsMoreRows model.now known.old known.new) }
{
    if known.cuts.len() >= MAX_CUTS as usize || !is_block(&cut) || !is_cut_line(&cut) {
        return Ok(false);
    }
    match next_row(alloc, model, known, &cut)? {
        Some(row) => {
            push_cut(model, known, cut, row)?;
            Ok(true)
        }
        None => Ok(false),
    }
}

/// Adds cuts with their rows, one after the other, as long as there is room and the checker takes them, and says whether
/// all were added.
pub(crate) fn add_cuts(
    alloc: Global,
    model: &Model,
    known: &mut Known,
    cuts: Vec<Cut>,
) -> Result<bool, AllocError>
    requires known { IsKnown model.now known.old }
    ensures { OnOk result (KnowsMoreRows model.now known.old known.new) }
{
    for cut in cuts {
        if !add_cut(alloc, model, known, cut)? {
            return Ok(false);
        }
    }
    Ok(true)
}
