// The components of an item over any number of lines.
ghost use Rattle.std.specs.Prelude.{◌≡◌, ◌≤◌, ◌<◌, ◌⊎◌, ℕ, length, map, true, false, IfOk};
ghost use Rattle.std.specs.List.{All};
ghost use Rattle.lot_sizing.specs.declared.limits.TheConstants.{MAX_ITEMS};
ghost use Rattle.bill.specs.Lines.{IsLine, Names, bill_of_lines, line_at};
ghost use Rattle.bill.specs.Sets.{AllGoInto, AreComponents, HasLinesOf, has, missing};

use crate::BillLines;
use lot_sizing::Need;
use std::alloc::{AllocError, Global};

// Puts an item into a set, and answers whether it is new.
fn add(set: &mut [bool], item: u32) -> bool
    requires low { 1 ≤ item }
    requires high { item ≤ length set.now }
    ensures size { length set.new ≡ length set.old }
    ensures keeps { (i : ℕ) → has set.old i ≡ true → has set.new i ≡ true }
    ensures named { has set.new item ≡ true }
    ensures only { (i : ℕ) → 1 ≤ i → has set.new i ≡ true → (has set.old i ≡ true) ⊎ (i ≡ item) }
    ensures same { result ≡ false → set.new ≡ set.old }
    ensures grown { result ≡ true → missing set.new < missing set.old }
    ensures fewer { missing set.new ≤ missing set.old }
{
    let place = (item - 1) as usize;
    if set[place] {
        return false;
    }
    set[place] = true;
    true
}

// Puts the items of some lines into a set, and answers whether one of them is new.
fn add_lines(needs: &[Need], set: &mut [bool]) -> bool
    requires lines { All (IsLine (length set.now)) needs.now }
    ensures size { length set.new ≡ length set.old }
    ensures keeps { (i : ℕ) → has set.old i ≡ true → has set.new i ≡ true }
    ensures named { (n : ℕ) → n < length needs.now → has set.new (line_at needs.now n).item ≡ true }
    ensures only { (i : ℕ) → 1 ≤ i → has set.new i ≡ true
        → (has set.old i ≡ true) ⊎ Names needs.now i }
    ensures same { result ≡ false → set.new ≡ set.old }
    ensures grown { result ≡ true → missing set.new < missing set.old }
    ensures fewer { missing set.new ≤ missing set.old }
{
    let mut grown = false;
    for line in 0..needs.len() {
        if add(set, needs[line].item) {
            grown = true;
        }
    }
    grown
}

// Where a set has an item, puts its components into the set, and answers whether one of them is new.
fn spread_from(lines: &BillLines, item: u32, set: &mut [bool]) -> bool
    requires size { length set.now ≡ length lines.now }
    requires low { 1 ≤ item }
    requires high { item ≤ length lines.now }
    ensures size { length set.new ≡ length set.old }
    ensures keeps { (i : ℕ) → has set.old i ≡ true → has set.new i ≡ true }
    ensures sound { (j : ℕ) → AllGoInto (bill_of_lines lines.now) j set.old
        → AllGoInto (bill_of_lines lines.now) j set.new }
    ensures closed { result ≡ false → has set.new item ≡ true
        → HasLinesOf (bill_of_lines lines.now) item set.new }
    ensures same { result ≡ false → set.new ≡ set.old }
    ensures grown { result ≡ true → missing set.new < missing set.old }
    ensures fewer { missing set.new ≤ missing set.old }
{
    if !set[(item - 1) as usize] {
        return false;
    }
    add_lines(lines.needs(item), set)
}

// Puts the components of each item of a set into it, and answers whether one of them is new.
fn spread(lines: &BillLines, set: &mut [bool]) -> bool
    requires size { length set.now ≡ length lines.now }
    ensures size { length set.new ≡ length set.old }
    ensures keeps { (i : ℕ) → has set.old i ≡ true → has set.new i ≡ true }
    ensures sound { (j : ℕ) → AllGoInto (bill_of_lines lines.now) j set.old
        → AllGoInto (bill_of_lines lines.now) j set.new }
    ensures closed { result ≡ false → (k : ℕ) → 1 ≤ k → k ≤ length lines.now → has set.new k ≡ true
        → HasLinesOf (bill_of_lines lines.now) k set.new }
    ensures grown { result ≡ true → missing set.new < missing set.old }
{
    let mut grown = false;
    for item in 1..lines.items() + 1 {
        if spread_from(lines, item, set) {
            grown = true;
        }
    }
    grown
}

/// The items that go into an item, over any number of lines: for each item whether it is one.
pub fn components(alloc: Global, lines: &BillLines, item: u32) -> Result<Vec<bool>, AllocError>
    requires low { 1 ≤ item }
    requires high { item ≤ length lines.now }
    ensures { IfOk result (λ set. AreComponents (bill_of_lines lines.now) item set.items) }
{
    let mut set = no_items(alloc, lines.items())?;
    add_lines(lines.needs(item), &mut set);
    while spread(lines, &mut set) {}
    Ok(set)
}

/// The set of no item.
pub fn no_items(alloc: Global, items: u32) -> Result<Vec<bool>, AllocError>
    requires few { items ≤ MAX_ITEMS }
    ensures size { IfOk result (λ set. length set.items ≡ items) }
    ensures none { IfOk result (λ set. (i : ℕ) → has set.items i ≡ false) }
{
    let mut set = Vec::with_capacity(alloc, items as usize)?;
    for _ in 0..items {
        set.push(false)?;
    }
    Ok(set)
}
