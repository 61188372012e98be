// The least price of the late lots of one item.
ghost use Rattle.std.specs.Prelude.{◌≡◌, ◌≤◌, ◌+◌, ◌-◌, ◌*◌, ◌^◌, ◌↔◌, length, IfOk, IsTrue};
ghost use Rattle.lot_sizing.specs.declared.limits.TheConstants.{MAX_PERIODS};
ghost use Rattle.late_starts.specs.Choices.{IsLeastUpTo};
ghost use Rattle.late_starts.specs.Rows.{capped};
ghost use Rattle.late_starts.specs.Pricing.{IsBase, IsLeastOfRow, IsRising, IsRowAfter, late_lots_of, lot_at, owing_from, servers_to, units_in};

use crate::LateLot;
use std::alloc::{AllocError, Global};

// Units that are on time by the end of a period and not before it.
fn units_in(lots: &[LateLot], period: u32) -> u64
    requires low { 1 ≤ period }
    requires high { period ≤ length lots.now }
    ensures { result ≡ units_in (late_lots_of lots.now 0).need period }
{
    let need = lots[(period - 1) as usize].need;
    if period == 1 {
        return need;
    }
    need.saturating_sub(lots[(period - 2) as usize].need)
}

// What a unit costs that falls short from a period on until a server starts it, by what it costs for the server before.
fn owing_to(lots: &[LateLot], owing: u128, period: u32, server: u32) -> u128
    requires low { 1 ≤ period }
    requires server { 1 ≤ server }
    requires high { server ≤ length lots.now }
    requires before { owing ≡ capped (owing_from lots.now period (server - 1)) }
    ensures { result ≡ capped (owing_from lots.now period server) }
{
    if server <= period {
        return owing;
    }
    owing.saturating_add(lots[(server - 2) as usize].share)
}

// The lesser of what a server cost, where it had a price, and of entering it.
fn base_price(row: &[u128], server: u32, entered: u128) -> u128
    requires { 1 ≤ server }
    ensures { IsBase row.now server entered result }
{
    if server as usize <= row.len() {
        row[(server - 1) as usize].min(entered)
    } else {
        entered
    }
}

// What it costs to enter a server: a setup after the least price so far.
fn entered(lots: &[LateLot], least: u128, server: u32) -> u128
    requires low { 1 ≤ server }
    requires high { server ≤ length lots.now }
    ensures { result ≡ capped (least + (lot_at lots.now server).setup) }
{
    least.saturating_add(lots[(server - 1) as usize].setup)
}

// A price, and that of some units more from a server, each of which owes so much.
fn price_with(lots: &[LateLot], base: u128, units: u64, owing: u128, server: u32) -> u128
    requires low { 1 ≤ server }
    requires high { server ≤ length lots.now }
    ensures { result ≡ capped (base + units * capped ((lot_at lots.now server).unit + owing)) }
{
    let unit = lots[(server - 1) as usize].unit.saturating_add(owing);
    base.saturating_add(u128::from(units).saturating_mul(unit))
}

// What is on time by the end of a period.
fn need_by(lots: &[LateLot], period: u32) -> u64
    requires low { 1 ≤ period }
    requires high { period ≤ length lots.now }
    ensures { result ≡ (lot_at lots.now period).need }
{
    lots[(period - 1) as usize].need
}

// How many periods may serve what is on time by the end of a period.
fn servers_to(settled: u32, period: u32) -> u32
    requires { 1 ≤ period }
    ensures { result ≡ servers_to settled period }
{
    period.max(settled)
}

// The prices of all servers after one more period.
fn next_row(
    alloc: Global,
    lots: &[LateLot],
    settled: u32,
    period: u32,
    row: &[u128],
    least: u128,
) -> Result<Vec<u128>, AllocError>
    requires low { 1 ≤ period }
    requires high { period ≤ length lots.now }
    requires settled { settled ≤ length lots.now }
    requires periods { length lots.now ≤ MAX_PERIODS }
    ensures { IfOk result (IsRowAfter (late_lots_of lots.now settled) period row.now least) }
{
    let units = units_in(lots, period);
    let mut next = Vec::with_capacity(alloc, lots.len())?;
    let mut owing = 0u128;
    for server in 1..servers_to(settled, period) + 1 {
        owing = owing_to(lots, owing, period, server);
        let base = base_price(row, server, entered(lots, least, server));
        next.push(price_with(lots, base, units, owing, server))?;
    }
    Ok(next)
}

// The least price of a row, and nothing where nothing is on time.
fn least_of(row: &[u128], need: u64) -> u128
    requires { length row.now ≤ MAX_PERIODS }
    ensures { IsLeastOfRow need row.now result }
{
    if need == 0 {
        return 0;
    }
    let mut least = u128::MAX;
    for server in 1..row.len() as u32 + 1 {
        least = least.min(row[(server - 1) as usize]);
    }
    least
}

/// Whether what is on time doesn't fall from one period to the next, as `least_late_price` asks for.
pub fn is_rising(lots: &[LateLot]) -> bool
    requires { length lots.now ≤ MAX_PERIODS }
    ensures { IsTrue result ↔ IsRising (late_lots_of lots.now 0) }
{
    for period in 2..lots.len() as u32 + 1 {
        if need_by(lots, period) < need_by(lots, period - 1) {
            return false;
        }
    }
    true
}

/// The least price of setups, quantities and shortfalls of an item that keep what is on time, where nothing may fall
/// short from a period on: no choice costs less, and where the price is below `u128::MAX` some choice costs just this.
/// The error is that memory ran out.
///
/// It takes time in the number of periods times itself, and memory in that of the periods.
pub fn least_late_price(alloc: Global, lots: &[LateLot], settled: u32) -> Result<u128, AllocError>
    requires rising { IsRising (late_lots_of lots.now 0) }
    requires settled { settled ≤ length lots.now }
    requires periods { length lots.now ≤ MAX_PERIODS }
    ensures { IfOk result (IsLeastUpTo (late_lots_of lots.now settled) (2 ^ 128 - 1)) }
{
    let mut row = Vec::new(alloc);
    let mut least = 0;
    for period in 1..lots.len() as u32 + 1 {
        row = next_row(alloc, lots, settled, period, &row, least)?;
        least = least_of(&row, need_by(lots, period));
    }
    Ok(least)
}
