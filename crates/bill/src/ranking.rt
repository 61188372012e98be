// Cycles of a bill, and the order of its items.
ghost use Rattle.std.specs.Prelude.{◌≡◌, ◌≤◌, ◌↔◌, ℕ, length, IfErr, IfOk, IsTrue, MatchOption};
ghost use Rattle.lot_sizing.specs.declared.limits.TheConstants.{MAX_ITEMS};
ghost use Rattle.lot_sizing.specs.Bill.{Bill, GoesInto, HasRanks};
ghost use Rattle.lot_sizing.specs.Problem.{entry};
ghost use Rattle.bill.specs.Lines.{bill_of_lines};
ghost use Rattle.bill.specs.Sets.{HasNoCycle, IsFirstOnCycle, IsReachOf, IsSquare, has, missing, set_of};

use crate::BillLines;
use crate::reach::components;
use std::alloc::{AllocError, Global};
use std::marker::Model;
use thiserror::Error;

// For each item the items that go into it, over any number of lines.
#[derive(Drop)]
pub struct Reach {
    sets: Vec<Vec<bool>>,
}

impl Model for Reach {
    ghost use Rattle.std.specs.Prelude.{List, Bool, map};

    ghost Value = { List (List Bool) };

    ghost view = { λ a. map (λ v. v.items) a.sets.items };

    ghost use Rattle.bill.specs.Sets.{IsSquare};

    ghost invariant = { λ a. IsSquare (map (λ v. v.items) a.sets.items) };
}

impl Reach {
    // The components of each item.
    fn of(alloc: Global, lines: &BillLines) -> Result<Reach, AllocError>
        ensures { IfOk result (IsReachOf (bill_of_lines lines.now)) }
    {
        let mut sets = Vec::with_capacity(alloc, lines.items() as usize)?;
        for item in 1..lines.items() + 1 {
            sets.push(components(alloc, lines, item)?)?;
        }
        Ok(Reach { sets })
    }

    // The number of items.
    fn items(&self) -> u32
        ensures value { result ≡ length self.now }
        ensures square { IsSquare self.now }
    {
        self.sets.len() as u32
    }

    // Whether an item goes into another, over one or more lines.
    fn goes_into(&self, item: u32, other: u32) -> bool
        requires low { 1 ≤ item }
        requires high { item ≤ length self.now }
        requires other_low { 1 ≤ other }
        requires other_high { other ≤ length self.now }
        ensures set { result ≡ has (set_of self.now other) item }
        ensures path { (b : Bill) → IsReachOf b self.now → (IsTrue result ↔ GoesInto b item other) }
    {
        let set: &[bool] = &self.sets[(other - 1) as usize];
        set[(item - 1) as usize]
    }

    // The first item that is its own component, over one or more lines.
    fn first_on_cycle(&self) -> Option<u32>
        ensures { (b : Bill) → IsReachOf b self.now
            → MatchOption result (HasNoCycle b) (IsFirstOnCycle b) }
    {
        for item in 1..self.items() + 1 {
            if self.goes_into(item, item) {
                return Some(item);
            }
        }
        None
    }

    // How many items don't go into an item.
    fn others(&self, item: u32) -> u32
        requires low { 1 ≤ item }
        requires high { item ≤ length self.now }
        ensures count { result ≡ missing (set_of self.now item) }
        ensures small { result ≤ length self.now }
    {
        let mut count = 0;
        for one in 1..self.items() + 1 {
            if !self.goes_into(one, item) {
                count += 1;
            }
        }
        count
    }

    // How many items don't go into each item, in place of the numbers that are given.
    fn all_others(&self, room: Vec<u32>) -> Vec<u32>
        requires { length room.items ≡ length self.now }
        ensures size { length result.items ≡ length self.now }
        ensures each { (j : ℕ) → 1 ≤ j → j ≤ length self.now
            → entry result.items j ≡ missing (set_of self.now j) }
        ensures small { (j : ℕ) → 1 ≤ j → j ≤ length self.now
            → entry result.items j ≤ length self.now }
    {
        let mut counts = room;
        for item in 1..self.items() + 1 {
            counts[(item - 1) as usize] = self.others(item);
        }
        counts
    }
}

/// An item is its own component, over one or more lines, and no earlier item is.
#[derive(Clone, Copy, Debug, PartialEq, Eq, Error)]
#[error("item {item} is a component of itself")]
pub struct CycleFault {
    pub item: u32,
}

/// The components of each item over any number of lines, and room for ranks.
#[derive(Drop)]
pub struct Ranking {
    reach: Reach,
    room: Vec<u32>,
}

impl Model for Ranking {
    ghost use Rattle.std.specs.Prelude.{◌≡◌, List, Bool, length};

    ghost Value = { List (List Bool) };

    ghost view = { λ a. a.reach };

    ghost invariant = { λ a. length a.room.items ≡ length a.reach };
}

impl Ranking {
    /// The components of each item. Only this takes memory, and its one error is that there is none.
    ///
    /// It takes time in the number of items times that of the lines, for each line that a path can have.
    pub fn of(alloc: Global, lines: &BillLines) -> Result<Ranking, AllocError>
        ensures { IfOk result (IsReachOf (bill_of_lines lines.now)) }
    {
        let reach = Reach::of(alloc, lines)?;
        let room = no_ranks(alloc, reach.items())?;
        Ok(Ranking { reach, room })
    }

    /// A rank for each item, above that of each item that it goes into: how many items aren't its
    /// components. Or the first item that is its own component. It takes no memory.
    pub fn into_ranks(self) -> Result<Vec<u32>, CycleFault>
        ensures size { IfOk result (λ ranks. length ranks.items ≡ length self) }
        ensures small { IfOk result (λ ranks. (i : ℕ) → entry ranks.items i ≤ length self) }
        ensures ranks { (b : Bill) → IsReachOf b self
            → IfOk result (λ ranks. HasRanks b (entry ranks.items)) }
        ensures refused { (b : Bill) → IsReachOf b self
            → IfErr result (λ fault. IsFirstOnCycle b fault.item) }
    {
        let Ranking { reach, room } = self;
        if let Some(item) = reach.first_on_cycle() {
            return Err(CycleFault { item });
        }
        Ok(reach.all_others(room))
    }
}

// Room for so many ranks.
fn no_ranks(alloc: Global, items: u32) -> Result<Vec<u32>, AllocError>
    requires { items ≤ MAX_ITEMS }
    ensures { IfOk result (λ room. length room.items ≡ items) }
{
    let mut room = Vec::with_capacity(alloc, items as usize)?;
    for _ in 0..items {
        room.push(0u32)?;
    }
    Ok(room)
}
