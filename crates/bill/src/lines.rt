// Lists of components that are a bill.
ghost use Rattle.std.specs.Prelude.{◌≡◌, ◌≤◌, ◌↔◌, length, map, IsTrue};
ghost use Rattle.std.specs.List.{All};
ghost use Rattle.lot_sizing.specs.declared.limits.TheConstants.{MAX_BILL_LINES};
ghost use Rattle.bill.specs.Lines.{AreLines, IsLine, lines_of};

use lot_sizing::Need;
use lot_sizing::limits::{MAX_BILL_LINES, MAX_ITEMS, MAX_QUANTITY};
use std::marker::Model;

// Whether a line names an item and takes at least one unit of it, and not too many.
fn is_line(need: Need, items: usize) -> bool
    ensures { IsTrue result ↔ IsLine items need }
{
    need.item >= 1
        && need.item as usize <= items
        && need.quantity >= 1
        && need.quantity <= MAX_QUANTITY
}

// Whether an item has such lines, and not too many.
fn are_needs(needs: &[Need], items: usize) -> bool
    ensures { IsTrue result ↔ ((length needs.now ≤ MAX_BILL_LINES) × All (IsLine items) needs.now) }
{
    needs.len() <= MAX_BILL_LINES as usize && needs.iter().all(|need| is_line(*need, items))
}

/// Whether the lists of components of items are a bill: at most `MAX_ITEMS` items with at most
/// `MAX_BILL_LINES` lines each, and each line names one of the items and takes from 1 to `MAX_QUANTITY`
/// units of it. It takes no memory.
pub fn is_bill(lines: &[&[Need]]) -> bool
    ensures { IsTrue result ↔ AreLines (map (λ list. list.now) lines.now) }
{
    if lines.len() > MAX_ITEMS as usize {
        return false;
    }
    for place in 0..lines.len() {
        let needs: &[Need] = lines[place];
        if !are_needs(needs, lines.len()) {
            return false;
        }
    }
    true
}

/// A bill: the list of each item's components. Items are counted from 1. Contracts see the list of the
/// lists.
#[derive(Drop)]
pub struct BillLines<'a> {
    lines: Vec<&'a [Need]>,
}

impl<'a> Model for BillLines<'a> {
    ghost use Rattle.std.specs.Prelude.{List, map};
    ghost use Rattle.lot_sizing.specs.declared.Need.{Need};

    ghost Value = { List (List Need) };

    ghost use Rattle.bill.specs.Lines.{AreLines};

    ghost view = { λ a. map (λ list. list.now) a.lines.items };

    ghost invariant = { λ a. AreLines (map (λ list. list.now) a.lines.items) };
}

impl<'a> BillLines<'a> {
    /// The bill of lists that are one, as `is_bill` says. It takes no memory.
    pub fn of(lines: Vec<&'a [Need]>) -> BillLines<'a>
        requires { AreLines (map (λ list. list.now) lines.items) }
        ensures { result ≡ map (λ list. list.now) lines.entry.items }
    {
        BillLines { lines }
    }

    /// The number of items.
    pub fn items(&self) -> u32
        ensures value { result ≡ length self.now }
        ensures lines { AreLines self.now }
    {
        self.lines.len() as u32
    }

    /// The components of an item.
    pub fn needs(&self, item: u32) -> &[Need]
        requires low { 1 ≤ item }
        requires high { item ≤ length self.now }
        ensures value { result.now ≡ lines_of self.now item }
        ensures count { length result.now ≤ MAX_BILL_LINES }
        ensures lines { All (IsLine (length self.now)) result.now }
    {
        self.lines[(item - 1) as usize]
    }
}
