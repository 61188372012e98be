// From a draft to an instance.
ghost use Rattle.std.specs.Prelude.{◌≡◌, ◌≤◌, length, None, Ok, IfOk, IfErr, OnOk, MatchResult};
ghost use Rattle.lot_sizing.specs.declared.limits.TheConstants.{MAX_ITEMS};
ghost use Rattle.lot_sizing.specs.Bill.{bill_of};
ghost use Rattle.lot_sizing.specs.Problem.{item_count, IsWithinLimits, Problem};
ghost use Rattle.bill.specs.Sets.{IsReachOf};
ghost use Rattle.lot_draft.specs.Raw.{raw_model};
ghost use Rattle.lot_draft.specs.Refusals.{later_fault, plain_fault};
ghost use Rattle.lot_draft.specs.Meaning.{HaveNeeds, problem_of};
ghost use Rattle.lot_model.specs.Meaning.{at_item, BreaksFirst, IsCycle, IsPastBound, Means};
ghost use Rattle.lot_model.specs.Valid.{HasFewLines};
ghost use Rattle.lot_model.specs.Held.{AreRanks, AreTotalsOf, IsFound, IsPrepared, needs_in, problem_of_parts};

use crate::building::{Parts, parts_of};
use crate::totals::{bill_lines, no_numbers, write_asked, write_there};
use crate::{Draft, Instance, ModelCode, ModelFault, Place};
use bill::{BillLines, Ranking, Tables, Totals, totals_exist};
use lot_draft::{later_fault, plain_fault};
use std::alloc::{AllocError, Global};

// A rule that an item breaks as a whole.
fn at_item(code: ModelCode, item: u32) -> ModelFault
    ensures { result ≡ at_item code item }
{
    ModelFault {
        code,
        place: Place::Item(item),
        key: None,
        period: None,
    }
}

// The bill of a problem, and room for its ranks and totals.
#[derive(Drop)]
pub struct Prepared<'a> {
    lines: BillLines<'a>,
    ranking: Ranking,
    tables: Tables,
    asked: Vec<u64>,
    there: Vec<u64>,
}

// Takes all the memory that the judgement of a problem's bill needs.
fn prepare<'a>(alloc: Global, parts: &'a Parts) -> Result<Prepared<'a>, AllocError>
    requires needs { HaveNeeds (problem_of_parts parts.now) }
    requires few { item_count (problem_of_parts parts.now) ≤ MAX_ITEMS }
    ensures { IfOk result (IsPrepared (problem_of_parts parts.now)) }
{
    let lines = bill_lines(alloc, &parts.items)?;
    let ranking = Ranking::of(alloc, &lines)?;
    let tables = Tables::of(alloc, lines.items())?;
    let asked = no_numbers(alloc, lines.items())?;
    let there = no_numbers(alloc, lines.items())?;
    Ok(Prepared {
        lines,
        ranking,
        tables,
        asked,
        there,
    })
}

// The ranks of a bill's items, or the first that is its own component.
fn ranks(ranking: Ranking) -> Result<Vec<u32>, ModelFault>
    ensures ranks { (p : Problem) → IsReachOf (bill_of p) ranking
        → IfOk result (λ ranks. AreRanks p ranks.items) }
    ensures refused { (p : Problem) → IsReachOf (bill_of p) ranking → IfErr result (IsCycle p) }
{
    match ranking.into_ranks() {
        Ok(ranks) => Ok(ranks),
        Err(fault) => Err(at_item(ModelCode::Cycle, fault.item)),
    }
}

// The totals and weights of a problem's items, or the first past the bound.
fn totals(
    parts: &Parts,
    lines: &BillLines,
    tables: Tables,
    asked: &mut [u64],
    there: &mut [u64],
    ranks: &[u32],
) -> Result<Totals, ModelFault>
    requires limits { IsWithinLimits (problem_of_parts parts.now) }
    requires lines { lines.now ≡ needs_in (problem_of_parts parts.now) }
    requires tables { tables ≡ item_count (problem_of_parts parts.now) }
    requires asked { length asked.now ≡ item_count (problem_of_parts parts.now) }
    requires there { length there.now ≡ item_count (problem_of_parts parts.now) }
    requires ranks { AreRanks (problem_of_parts parts.now) ranks.now }
    ensures found { IfOk result (λ found.
        AreTotalsOf (problem_of_parts parts.now) found.totals found.weights) }
    ensures refused { IfErr result (IsPastBound (problem_of_parts parts.now)) }
{
    totals_exist();
    write_asked(parts, asked);
    write_there(parts, there);
    match Totals::of(tables, lines, asked, there, ranks) {
        Ok(found) => Ok(found),
        Err(fault) => Err(at_item(ModelCode::QuantityBound, fault.item)),
    }
}

// The ranks, totals and weights of a problem's items.
#[derive(Drop)]
pub struct Found {
    ranks: Vec<u32>,
    totals: Totals,
}

// The ranks, totals and weights of a draft with no plain fault, or the first rule that it breaks.
fn judged(draft: &Draft, parts: &Parts, prepared: Prepared) -> Result<Found, ModelFault>
    requires plain { plain_fault (raw_model draft.now) ≡ None }
    requires parts { problem_of_parts parts.now ≡ problem_of (raw_model draft.now) }
    requires prepared { IsPrepared (problem_of (raw_model draft.now)) prepared }
    ensures later { OnOk result (later_fault (raw_model draft.now) ≡ None) }
    ensures limits { OnOk result (IsWithinLimits (problem_of (raw_model draft.now))) }
    ensures lines { OnOk result (HasFewLines (problem_of (raw_model draft.now))) }
    ensures found { IfOk result (IsFound (problem_of (raw_model draft.now))) }
    ensures refused { IfErr result (BreaksFirst (raw_model draft.now)) }
{
    let Prepared {
        lines,
        ranking,
        tables,
        asked,
        there,
    } = prepared;
    let (mut asked, mut there) = (asked, there);
    let ranks = match ranks(ranking) {
        Ok(ranks) => ranks,
        Err(fault) => return Err(fault),
    };
    if let Some(fault) = later_fault(draft) {
        return Err(fault);
    }
    match totals(parts, &lines, tables, &mut asked, &mut there, &ranks) {
        Ok(totals) => Ok(Found { ranks, totals }),
        Err(fault) => Err(fault),
    }
}

/// The instance of a draft, or the first rule that it breaks. The error is that there is no memory.
pub fn instance(alloc: Global, draft: &Draft) -> Result<Result<Instance, ModelFault>, AllocError>
    ensures { IfOk result (λ made.
        MatchResult made (λ p. Means (raw_model draft.now) (Ok p))
        (BreaksFirst (raw_model draft.now))) }
{
    if let Some(fault) = plain_fault(draft) {
        return Ok(Err(fault));
    }
    let parts = parts_of(alloc, draft)?;
    let found = judged(draft, &parts, prepare(alloc, &parts)?);
    match found {
        Ok(Found { ranks, totals }) => Ok(Ok(Instance {
            periods: parts.periods,
            resources: parts.resources,
            items: parts.items,
            totals,
            ranks,
        })),
        Err(fault) => Ok(Err(fault)),
    }
}
