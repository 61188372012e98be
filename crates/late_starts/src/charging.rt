// What shares of shortfalls charge on backlogs.
ghost use Rattle.std.specs.Prelude.{◌≡◌, ℕ, ◌≤◌, ◌<◌, ◌+◌, ◌-◌, ◌↔◌, length, slice_set, IfOk, IsTrue, OnOk};
ghost use Rattle.lot_sizing.specs.Problem.{entry, item_count};
ghost use Rattle.lot_sizing.specs.Totals.{IsRanking};
ghost use Rattle.must_start.specs.Rows.{row_in};
ghost use Rattle.late_starts.specs.Rows.{AreChargesOf, HaveCells, IsOnTimeOf, capped, cell_in, rows_of};
ghost use Rattle.late_starts.specs.Steps.{AreLoaded, AreLoadedTo, HasArrivingLoads, HasCharges, HasLoads, HaveChargesIn, charge_by, depth_in, load_by, needed_in};

use crate::OnTime;
use crate::arrivals::arrival_period;
use lot_model::Instance;
use std::alloc::{AllocError, Global};
use std::marker::Model;

// For each item and period the loads of the periods whose lots arrive in it.
#[derive(Drop)]
pub(crate) struct Arriving {
    // a row for each item, with a load for each period
    rows: Vec<Vec<u128>>,
}

impl Model for Arriving {
    ghost use Rattle.std.specs.Prelude.{List, map, ℕ};

    ghost Value = { List (List ℕ) };

    ghost view = { λ a. map (λ v. v.items) a.rows.items };
}

impl Arriving {
    // A row of zeros for each item.
    fn none_yet(alloc: Global, instance: &Instance) -> Result<Arriving, AllocError>
        ensures { IfOk result (HaveCells instance.now) }
    {
        let mut rows = Vec::with_capacity(alloc, instance.items() as usize)?;
        for _ in 0..instance.items() {
            rows.push(vec![in alloc; 0u128; instance.periods() as usize]?)?;
        }
        Ok(Arriving { rows })
    }

    // Puts a row in the place of an item's.
    fn put(&mut self, item: u32, row: Vec<u128>)
        requires low { 1 ≤ item }
        requires high { item ≤ length self.old }
        ensures { self.new ≡ slice_set self.old (item - 1) row.items }
    {
        self.rows[(item - 1) as usize] = row;
    }

    // The loads of an item and a period.
    fn at(&self, item: u32, period: u32) -> u128
        requires low { 1 ≤ item }
        requires high { item ≤ length self.now }
        requires some { 1 ≤ period }
        requires period { period ≤ length (row_in self.now item) }
        ensures { result ≡ cell_in self.now item period }
    {
        let row: &[u128] = &self.rows[(item - 1) as usize];
        row[(period - 1) as usize]
    }

    // Puts the row of an item in its place, where those of all its components have theirs.
    fn fill(
        &mut self,
        alloc: Global,
        instance: &Instance,
        on_time: &OnTime,
        shares: &[Vec<u128>],
        ranks: &[u32],
        item: u32,
    ) -> Result<(), AllocError>
        requires on_time { IsOnTimeOf instance.now on_time.now }
        requires shares { HaveCells instance.now (rows_of shares.now) }
        requires ranks { IsRanking instance.now (entry ranks.now) }
        requires small { (i : ℕ) → entry ranks.now i ≤ item_count instance.now }
        requires low { 1 ≤ item }
        requires high { item ≤ item_count instance.now }
        requires before { AreLoadedTo instance.now ranks.now on_time.now shares.now
            (depth_in instance.now ranks.now item) item self.old }
        ensures { OnOk result (AreLoadedTo instance.now ranks.now on_time.now shares.now
            (depth_in instance.now ranks.now item) (item + 1) self.new) }
    {
        let row: &[u128] = &shares[(item - 1) as usize];
        let loads = loads_of(alloc, instance, self, row, item)?;
        let row = arriving_of(alloc, instance, on_time, &loads, item)?;
        self.put(item, row);
        Ok(())
    }

    // Puts the rows of the items of a depth in their places.
    fn fill_depth(
        &mut self,
        alloc: Global,
        instance: &Instance,
        on_time: &OnTime,
        shares: &[Vec<u128>],
        ranks: &[u32],
        depth: u32,
    ) -> Result<(), AllocError>
        requires on_time { IsOnTimeOf instance.now on_time.now }
        requires shares { HaveCells instance.now (rows_of shares.now) }
        requires size { length ranks.now ≡ item_count instance.now }
        requires ranks { IsRanking instance.now (entry ranks.now) }
        requires small { (i : ℕ) → entry ranks.now i ≤ item_count instance.now }
        requires before { AreLoadedTo instance.now ranks.now on_time.now shares.now
            depth 1 self.old }
        ensures { OnOk result (AreLoadedTo instance.now ranks.now on_time.now shares.now
            depth (item_count instance.now + 1) self.new) }
    {
        for item in 1..instance.items() + 1 {
            if instance.items() - ranks[(item - 1) as usize] == depth {
                self.fill(alloc, instance, on_time, shares, ranks, item)?;
            }
        }
        Ok(())
    }

    // The loads of all items and periods, components before what they go into.
    fn of(
        alloc: Global,
        instance: &Instance,
        on_time: &OnTime,
        shares: &[Vec<u128>],
    ) -> Result<Arriving, AllocError>
        requires on_time { IsOnTimeOf instance.now on_time.now }
        requires shares { HaveCells instance.now (rows_of shares.now) }
        ensures { IfOk result (AreLoaded instance.now on_time.now shares.now) }
    {
        let mut arriving = Arriving::none_yet(alloc, instance)?;
        let ranks = instance.ranks();
        for depth in 0..instance.items() + 1 {
            arriving.fill_depth(alloc, instance, on_time, shares, ranks, depth)?;
        }
        Ok(arriving)
    }
}

// The load of an item and a period: its share, and what its components put on it.
fn load_of(instance: &Instance, arriving: &Arriving, share: u128, item: u32, period: u32) -> u128
    requires arriving { HaveCells instance.now arriving.now }
    requires low { 1 ≤ item }
    requires high { item ≤ item_count instance.now }
    requires some { 1 ≤ period }
    requires period { period ≤ instance.now.periods }
    ensures { result ≡ capped (load_by instance.now arriving.now share item period) }
{
    let mut load = share;
    for component in 1..instance.items() + 1 {
        let units = u128::from(instance.per_unit(component, item));
        load = load.saturating_add(units.saturating_mul(arriving.at(component, period)));
    }
    load
}

// The loads of an item, one for each period.
fn loads_of(
    alloc: Global,
    instance: &Instance,
    arriving: &Arriving,
    shares: &[u128],
    item: u32,
) -> Result<Vec<u128>, AllocError>
    requires arriving { HaveCells instance.now arriving.now }
    requires shares { length shares.now ≡ instance.now.periods }
    requires low { 1 ≤ item }
    requires high { item ≤ item_count instance.now }
    ensures { IfOk result (HasLoads instance.now arriving.now shares.now item) }
{
    let mut list = Vec::with_capacity(alloc, instance.periods() as usize)?;
    for period in 1..instance.periods() + 1 {
        let share = shares[(period - 1) as usize];
        list.push(load_of(instance, arriving, share, item, period))?;
    }
    Ok(list)
}

// The load of a period, and nothing where nothing would have to be started by its end.
fn needed_load(on_time: &OnTime, loads: &[u128], item: u32, period: u32) -> u128
    requires low { 1 ≤ item }
    requires high { item ≤ length on_time.now }
    requires row { period < length (row_in on_time.now item) }
    requires some { 1 ≤ period }
    requires period { period ≤ length loads.now }
    ensures { result ≡ needed_in on_time.now loads.now item period }
{
    if on_time.by_end(item, period) == 0 {
        0
    } else {
        loads[(period - 1) as usize]
    }
}

// The loads of an item that count for each period: those of the periods whose lots arrive in it.
fn arriving_of(
    alloc: Global,
    instance: &Instance,
    on_time: &OnTime,
    loads: &[u128],
    item: u32,
) -> Result<Vec<u128>, AllocError>
    requires on_time { IsOnTimeOf instance.now on_time.now }
    requires loads { length loads.now ≡ instance.now.periods }
    requires low { 1 ≤ item }
    requires high { item ≤ item_count instance.now }
    ensures { IfOk result (HasArrivingLoads instance.now on_time.now loads.now item) }
{
    let mut list = vec![in alloc; 0u128; instance.periods() as usize]?;
    for period in 1..instance.periods() + 1 {
        let at = (arrival_period(instance, item, period) - 1) as usize;
        list[at] = list[at].saturating_add(needed_load(on_time, loads, item, period));
    }
    Ok(list)
}

// What is charged on the backlog of an item at the end of a period: nothing where there can be none.
fn charge_of(instance: &Instance, arriving: &Arriving, item: u32, period: u32) -> u128
    requires arriving { HaveCells instance.now arriving.now }
    requires low { 1 ≤ item }
    requires high { item ≤ item_count instance.now }
    requires some { 1 ≤ period }
    requires period { period ≤ instance.now.periods }
    ensures { result ≡ charge_by instance.now arriving.now item period }
{
    if period < instance.periods() && instance.has_backlog_cost(item) {
        arriving.at(item, period)
    } else {
        0
    }
}

// What is charged on the backlogs of an item, one for each period.
fn charges_of(
    alloc: Global,
    instance: &Instance,
    arriving: &Arriving,
    item: u32,
) -> Result<Vec<u128>, AllocError>
    requires arriving { HaveCells instance.now arriving.now }
    requires low { 1 ≤ item }
    requires high { item ≤ item_count instance.now }
    ensures { IfOk result (HasCharges instance.now arriving.now item) }
{
    let mut list = Vec::with_capacity(alloc, instance.periods() as usize)?;
    for period in 1..instance.periods() + 1 {
        list.push(charge_of(instance, arriving, item, period))?;
    }
    Ok(list)
}

// What is charged on the backlogs of all items, a row for each.
fn rows_of(
    alloc: Global,
    instance: &Instance,
    arriving: &Arriving,
) -> Result<Vec<Vec<u128>>, AllocError>
    requires arriving { HaveCells instance.now arriving.now }
    ensures { IfOk result (HaveChargesIn instance.now arriving.now) }
{
    let mut rows = Vec::with_capacity(alloc, instance.items() as usize)?;
    for item in 1..instance.items() + 1 {
        rows.push(charges_of(alloc, instance, arriving, item)?)?;
    }
    Ok(rows)
}

/// Whether there is a row for each item, with an entry for each period.
pub fn have_cells(instance: &Instance, rows: &[Vec<u128>]) -> bool
    ensures { IsTrue result ↔ HaveCells instance.now (rows_of rows.now) }
{
    if rows.len() != instance.items() as usize {
        return false;
    }
    for item in 1..instance.items() + 1 {
        let row: &[u128] = &rows[(item - 1) as usize];
        if row.len() != instance.periods() as usize {
            return false;
        }
    }
    true
}

/// What shares of the shortfalls of items and periods charge on the backlogs, a row for each item with an entry for
/// each period: the exact charges of `AreCharges`, but for `u128::MAX` in the place of each greater one. So a charge
/// that is no more than a price below `u128::MAX` is exact. The shares are a row for each item with an entry for each
/// period. The error is that memory ran out.
///
/// It takes time in the number of periods times that of pairs of items.
pub fn charges(
    alloc: Global,
    instance: &Instance,
    on_time: &OnTime,
    shares: &[Vec<u128>],
) -> Result<Vec<Vec<u128>>, AllocError>
    requires on_time { IsOnTimeOf instance.now on_time.now }
    requires shares { HaveCells instance.now (rows_of shares.now) }
    ensures { IfOk result (AreChargesOf instance.now on_time.now shares.now) }
{
    let arriving = Arriving::of(alloc, instance, on_time, shares)?;
    rows_of(alloc, instance, &arriving)
}
