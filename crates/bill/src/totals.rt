// The totals and weights of a bill.
ghost use Rattle.std.specs.Prelude.{◌≡◌, ◌≤◌, ◌<◌, ◌⊎◌, ◌+◌, ◌-◌, ◌*◌, ℕ, length, map, true, false, IfErr, IfOk, IfSome, MatchOption, None, slice_index_or, []};
ghost use Rattle.std.specs.List.{All};
ghost use Rattle.lot_sizing.specs.declared.limits.TheConstants.{MAX_BILL_LINES, MAX_ITEMS, MAX_QUANTITY, MAX_TOTAL};
ghost use Rattle.lot_sizing.specs.Bill.{HasRanks};
ghost use Rattle.lot_sizing.specs.Problem.{entry};
ghost use Rattle.bill.specs.Lines.{bill_of_lines, units_in};
ghost use Rattle.bill.specs.Over.{AreAll, AreSmall, HaveSize, IsFirstOverIn, row_entry};
ghost use Rattle.bill.specs.Sets.{has};
ghost use Rattle.bill.specs.Steps.{AreDone, AreEmpty, AreRows, AreSame, AreSameBut, AreSettled, AreUsersSettled, HasLargeNumber, HasLargeWeight, HasNoneStuck, HasTables, HasUndone, IsFirstStuck, IsProgress, IsRowOf, IsSettledIn, IsWaiting, StaysDone, total_by, weight_by, weights_in};

use crate::BillLines;
use crate::reach::no_items;
use lot_sizing::Need;
use lot_sizing::limits::MAX_TOTAL;
use std::alloc::{AllocError, Global};
use std::marker::Model;
use std::mem;
use thiserror::Error;

// How many units of an item some lines take.
fn units(needs: &[Need], item: u32) -> u64
    requires count { length needs.now ≤ MAX_BILL_LINES }
    requires small { All (λ need. need.quantity ≤ MAX_QUANTITY) needs.now }
    ensures value { result ≡ units_in needs.now item }
    ensures small { result ≤ MAX_BILL_LINES * MAX_QUANTITY }
{
    let mut sum = 0u64;
    for line in 0..needs.len() {
        let need = needs[line];
        if need.item == item {
            sum += need.quantity;
        }
    }
    sum
}

// How many units of an item go into one unit of another over one line.
fn units_of(lines: &BillLines, item: u32, other: u32) -> u64
    requires low { 1 ≤ other }
    requires high { other ≤ length lines.now }
    ensures value { result ≡ (bill_of_lines lines.now).units item other }
    ensures small { result ≤ MAX_BILL_LINES * MAX_QUANTITY }
{
    units(lines.needs(other), item)
}

// Whether all items that an item goes into over one line are done.
fn users_done(lines: &BillLines, done: &[bool], item: u32) -> bool
    requires size { length done.now ≡ length lines.now }
    ensures all { result ≡ true → AreDone (bill_of_lines lines.now) done.now item }
    ensures some { result ≡ false → HasUndone (bill_of_lines lines.now) done.now item }
{
    for other in 1..lines.items() + 1 {
        if units_of(lines, item, other) > 0 && !done[(other - 1) as usize] {
            return false;
        }
    }
    true
}

// The total of an item, from those of the items that it goes into.
fn total_of(lines: &BillLines, totals: &[u64], asked: u64, there: u64, item: u32) -> u128
    requires size { length totals.now ≡ length lines.now }
    requires small { (i : ℕ) → entry totals.now i ≤ MAX_TOTAL }
    ensures { result ≡ total_by (bill_of_lines lines.now) asked there totals.now item }
{
    let mut sum = asked as u128;
    for other in 1..lines.items() + 1 {
        let total = totals[(other - 1) as usize];
        sum += units_of(lines, item, other) as u128 * total as u128;
    }
    sum.saturating_sub(there as u128)
}

// A weight of an item, from those of the items that it goes into.
fn weight_of(lines: &BillLines, weights: &[Vec<u64>], item: u32, whole: u32) -> u128
    requires size { length weights.now ≡ length lines.now }
    requires rows { HaveSize (length lines.now) (map (λ v. v.items) weights.now) }
    requires small { AreSmall (map (λ v. v.items) weights.now) }
    requires low { 1 ≤ whole }
    requires high { whole ≤ length lines.now }
    ensures { result ≡ weight_by (bill_of_lines lines.now) (map (λ v. v.items) weights.now) item
        whole }
{
    let mut sum = if item == whole { 1u128 } else { 0 };
    for other in 1..lines.items() + 1 {
        let row: &[u64] = &weights[(other - 1) as usize];
        let weight = row[(whole - 1) as usize];
        sum += units_of(lines, item, other) as u128 * weight as u128;
    }
    sum
}

// Writes the weights of an item over a row, and answers whether none of them is past the bound.
fn write_row(lines: &BillLines, weights: &[Vec<u64>], item: u32, row: &mut [u64]) -> bool
    requires size { length weights.now ≡ length lines.now }
    requires rows { HaveSize (length lines.now) (map (λ v. v.items) weights.now) }
    requires small { AreSmall (map (λ v. v.items) weights.now) }
    requires row { AreRows (length lines.now) row.now }
    ensures kept { AreRows (length lines.now) row.new }
    ensures row { result ≡ true → IsRowOf (bill_of_lines lines.now) (map (λ v. v.items) weights.now)
        item row.new }
    ensures large { result ≡ false → HasLargeWeight (bill_of_lines lines.now)
        (map (λ v. v.items) weights.now) item }
{
    for whole in 1..lines.items() + 1 {
        let weight = weight_of(lines, weights, item, whole);
        if weight > MAX_TOTAL as u128 {
            return false;
        }
        row[(whole - 1) as usize] = weight as u64;
    }
    true
}

// What is known of the items so far, and a row to write on. What isn't known is 0.
#[derive(Drop)]
pub struct Known {
    done: Vec<bool>,
    totals: Vec<u64>,
    weights: Vec<Vec<u64>>,
    row: Vec<u64>,
}

// The total of an item, with its weights in the row, or none where one of them is past the bound.
fn numbers_of(
    lines: &BillLines,
    known: &mut Known,
    asked: u64,
    there: u64,
    item: u32,
) -> Option<u64>
    requires tables { HasTables (length lines.now) known.now }
    ensures tables { HasTables (length lines.now) known.new }
    ensures same { AreSame known.old known.new }
    ensures total { IfSome result (λ total. total
        ≡ total_by (bill_of_lines lines.now) asked there known.old.totals.items item) }
    ensures small { IfSome result (λ total. total ≤ MAX_TOTAL) }
    ensures row { IfSome result (λ _.
        IsRowOf (bill_of_lines lines.now) (weights_in known.old) item known.new.row.items) }
    ensures none { result ≡ None → HasLargeNumber (bill_of_lines lines.now) asked there known.old
        item }
{
    let total = total_of(lines, &known.totals, asked, there, item);
    if total > MAX_TOTAL as u128 {
        return None;
    }
    if !write_row(lines, &known.weights, item, &mut known.row) {
        return None;
    }
    Some(total as u64)
}

// Keeps the total of an item, and its weights, which are in the row.
fn keep(known: &mut Known, item: u32, total: u64)
    requires low { 1 ≤ item }
    requires high { item ≤ length known.now.done.items }
    requires tables { HasTables (length known.now.done.items) known.now }
    requires total { total ≤ MAX_TOTAL }
    ensures tables { HasTables (length known.old.done.items) known.new }
    ensures done { has known.new.done.items item ≡ true }
    ensures total { entry known.new.totals.items item ≡ total }
    ensures row { slice_index_or (weights_in known.new) (item - 1) [] ≡ known.old.row.items }
    ensures others { AreSameBut item known.old known.new }
{
    let place = (item - 1) as usize;
    known.done[place] = true;
    known.totals[place] = total;
    mem::swap(&mut known.weights[place], &mut known.row);
}

// Takes an item. Where all that it goes into are done and none of its numbers is past the bound, keeps
// them, and the item is done.
fn settle(lines: &BillLines, asked: &[u64], there: &[u64], known: &mut Known, item: u32)
    requires asked { length asked.now ≡ length lines.now }
    requires there { length there.now ≡ length lines.now }
    requires low { 1 ≤ item }
    requires high { item ≤ length lines.now }
    requires tables { HasTables (length lines.now) known.now }
    requires progress { IsProgress lines.now asked.now there.now known.now }
    requires users { AreUsersSettled lines.now asked.now there.now known.now.done.items item }
    ensures tables { HasTables (length lines.now) known.new }
    ensures keeps { StaysDone known.old.done.items known.new.done.items }
    ensures progress { IsProgress lines.now asked.now there.now known.new }
    ensures settled { IsSettledIn lines.now asked.now there.now known.new.done.items item }
{
    if !users_done(lines, &known.done, item) {
        return;
    }
    let place = (item - 1) as usize;
    if let Some(total) = numbers_of(lines, known, asked[place], there[place], item) {
        keep(known, item, total);
    }
}

// Takes an item if it is of a rank, once all items of lower ranks have been taken.
fn settle_of_rank(
    lines: &BillLines,
    asked: &[u64],
    there: &[u64],
    ranks: &[u32],
    rank: u32,
    known: &mut Known,
    item: u32,
)
    requires asked { length asked.now ≡ length lines.now }
    requires there { length there.now ≡ length lines.now }
    requires count { length ranks.now ≡ length lines.now }
    requires ranks { HasRanks (bill_of_lines lines.now) (entry ranks.now) }
    requires low { 1 ≤ item }
    requires high { item ≤ length lines.now }
    requires tables { HasTables (length lines.now) known.now }
    requires progress { IsProgress lines.now asked.now there.now known.now }
    requires before { AreSettled lines.now asked.now there.now known.now.done.items ranks.now rank }
    ensures tables { HasTables (length lines.now) known.new }
    ensures keeps { StaysDone known.old.done.items known.new.done.items }
    ensures progress { IsProgress lines.now asked.now there.now known.new }
    ensures settled { entry ranks.now item ≡ rank
        → IsSettledIn lines.now asked.now there.now known.new.done.items item }
{
    if ranks[(item - 1) as usize] == rank {
        settle(lines, asked, there, known, item);
    }
}

// Takes all items of a rank, once those of lower ranks have been taken.
fn settle_rank(
    lines: &BillLines,
    asked: &[u64],
    there: &[u64],
    ranks: &[u32],
    rank: u32,
    known: &mut Known,
)
    requires asked { length asked.now ≡ length lines.now }
    requires there { length there.now ≡ length lines.now }
    requires count { length ranks.now ≡ length lines.now }
    requires ranks { HasRanks (bill_of_lines lines.now) (entry ranks.now) }
    requires tables { HasTables (length lines.now) known.now }
    requires progress { IsProgress lines.now asked.now there.now known.now }
    requires before { AreSettled lines.now asked.now there.now known.now.done.items ranks.now rank }
    ensures tables { HasTables (length lines.now) known.new }
    ensures progress { IsProgress lines.now asked.now there.now known.new }
    ensures after { AreSettled lines.now asked.now there.now known.new.done.items ranks.now
        (rank + 1) }
{
    for item in 1..lines.items() + 1 {
        settle_of_rank(lines, asked, there, ranks, rank, known, item);
    }
}

// Whether an item isn't done though all that it goes into are.
fn is_stuck(lines: &BillLines, done: &[bool], item: u32) -> bool
    requires size { length done.now ≡ length lines.now }
    requires low { 1 ≤ item }
    requires high { item ≤ length lines.now }
    ensures undone { result ≡ true → has done.now item ≡ false }
    ensures users { result ≡ true → AreDone (bill_of_lines lines.now) done.now item }
    ensures waits { result ≡ false → IsWaiting (bill_of_lines lines.now) done.now item }
{
    if done[(item - 1) as usize] {
        return false;
    }
    users_done(lines, done, item)
}

// The first item that isn't done though all that it goes into are. Once all have been taken it is the
// first one past the bound.
fn first_stuck(lines: &BillLines, done: &[bool]) -> Option<u32>
    requires size { length done.now ≡ length lines.now }
    ensures { MatchOption result (HasNoneStuck (bill_of_lines lines.now) done.now)
        (IsFirstStuck (bill_of_lines lines.now) done.now) }
{
    for item in 1..lines.items() + 1 {
        if is_stuck(lines, done, item) {
            return Some(item);
        }
    }
    None
}

/// Room for the totals and weights of so many items. Contracts see the number of items.
#[derive(Drop)]
pub struct Tables {
    known: Known,
}

impl Model for Tables {
    ghost use Rattle.std.specs.Prelude.{ℕ, length};

    ghost Value = { ℕ };

    ghost use Rattle.bill.specs.Steps.{AreEmpty};

    ghost view = { λ a. length a.known.done.items };

    ghost invariant = { λ a. AreEmpty a.known };
}

impl Tables {
    /// Room for the totals and weights of so many items. The one error is that there is no memory.
    pub fn of(alloc: Global, items: u32) -> Result<Tables, AllocError>
        requires few { items ≤ MAX_ITEMS }
        ensures { IfOk result (λ tables. tables ≡ items) }
    {
        let known = nothing_known(alloc, items)?;
        Ok(Tables { known })
    }
}

// The tables of which nothing is known yet.
fn nothing_known(alloc: Global, items: u32) -> Result<Known, AllocError>
    requires few { items ≤ MAX_ITEMS }
    ensures size { IfOk result (λ known. length known.done.items ≡ items) }
    ensures empty { IfOk result AreEmpty }
{
    let done = no_items(alloc, items)?;
    let totals = zeros(alloc, items)?;
    let mut weights = Vec::with_capacity(alloc, items as usize)?;
    for _ in 0..items {
        weights.push(zeros(alloc, items)?)?;
    }
    let row = zeros(alloc, items)?;
    Ok(Known {
        done,
        totals,
        weights,
        row,
    })
}

// So many zeros.
fn zeros(alloc: Global, count: u32) -> Result<Vec<u64>, AllocError>
    requires few { count ≤ MAX_ITEMS }
    ensures size { IfOk result (λ list. length list.items ≡ count) }
    ensures zero { IfOk result (λ list. (i : ℕ) → entry list.items i ≡ 0) }
{
    let mut list = Vec::with_capacity(alloc, count as usize)?;
    for _ in 0..count {
        list.push(0u64)?;
    }
    Ok(list)
}

/// The total or a weight of an item is above `MAX_TOTAL`, those of all items that it goes into aren't,
/// and no earlier item is like that.
#[derive(Clone, Copy, Debug, PartialEq, Eq, Error)]
#[error("the total or a weight of item {item} is too large")]
pub struct BoundFault {
    pub item: u32,
}

/// The totals and the weights of a bill's items, none above `MAX_TOTAL`.
#[derive(Drop)]
pub struct Totals {
    totals: Vec<u64>,
    weights: Vec<Vec<u64>>,
}

impl Model for Totals {
    ghost use Rattle.std.specs.Prelude.{map};
    ghost use Rattle.bill.specs.Over.{TotalsAndWeights};

    ghost Value = { TotalsAndWeights };

    ghost view = { λ a. record { totals = a.totals.items; weights = map (λ v. v.items) a.weights.items } };
}

impl Totals {
    /// The totals and weights of a bill whose items have ranks: of each item its total, which is what is
    /// asked of it and what the totals of other items take of it, less what is there; and its weights,
    /// the units of it in one unit of each item over all paths. Or the first item past the bound. It
    /// takes no memory.
    ///
    /// It takes time in the square of the number of items times that of the lines.
    pub fn of(
        tables: Tables,
        lines: &BillLines,
        asked: &[u64],
        there: &[u64],
        ranks: &[u32],
    ) -> Result<Totals, BoundFault>
        requires tables { tables ≡ length lines.now }
        requires asked { length asked.now ≡ length lines.now }
        requires there { length there.now ≡ length lines.now }
        requires count { length ranks.now ≡ length lines.now }
        requires ranks { HasRanks (bill_of_lines lines.now) (entry ranks.now) }
        requires small { (i : ℕ) → entry ranks.now i ≤ length lines.now }
        ensures totals_size { IfOk result (λ found. length found.totals ≡ length lines.now) }
        ensures weights_size { IfOk result (λ found. length found.weights ≡ length lines.now) }
        ensures row_sizes { IfOk result (λ found. HaveSize (length lines.now) found.weights) }
        ensures small { IfOk result (λ found. (i : ℕ) → entry found.totals i ≤ MAX_TOTAL) }
        ensures ok { IfOk result (AreAll (bill_of_lines lines.now) asked.now there.now) }
        ensures refused { IfErr result (λ fault.
            IsFirstOverIn (bill_of_lines lines.now) asked.now there.now fault.item) }
    {
        let mut known = tables.known;
        for rank in 0..lines.items() + 1 {
            settle_rank(lines, asked, there, ranks, rank, &mut known);
        }
        if let Some(item) = first_stuck(lines, &known.done) {
            return Err(BoundFault { item });
        }
        Ok(Totals {
            totals: known.totals,
            weights: known.weights,
        })
    }

    /// The total of an item. It takes no memory.
    pub fn total(&self, item: u32) -> u64
        requires low { 1 ≤ item }
        requires high { item ≤ length self.now.totals }
        ensures { result ≡ entry self.now.totals item }
    {
        self.totals[(item - 1) as usize]
    }

    /// The weight of an item in another: how many units of it one unit of the other takes over all
    /// paths. It takes no memory.
    pub fn weight(&self, item: u32, other: u32) -> u64
        requires low { 1 ≤ item }
        requires high { item ≤ length self.now.weights }
        requires other_low { 1 ≤ other }
        requires other_high { other ≤ length (slice_index_or self.now.weights (item - 1) []) }
        ensures { result ≡ row_entry self.now.weights item other }
    {
        let row: &[u64] = &self.weights[(item - 1) as usize];
        row[(other - 1) as usize]
    }
}
