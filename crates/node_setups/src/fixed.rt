// What a path says of setups.
ghost use Rattle.std.specs.Prelude.{◌≡◌, ◌↔◌, IsTrue, ◌<◌, ◌≤◌, ◌^◌, [], ℕ, IfOk, length, replicate};
ghost use Rattle.lin_rows.specs.Columns.{IsCell};
ghost use Rattle.lin_rows.specs.declared.column.Column.TheVariants.{Y};
ghost use Rattle.node_setups.specs.declared.fixed.Held.TheVariants.{Free};
ghost use Rattle.node_setups.specs.Holding.{IsLastHeld, IsHeld, IsPutOver, HasCell, held_at, line_of, held_by, with_held};

use lin_rows::{Bound, Column};
use lot_model::Instance;
use std::alloc::{AllocError, Global};
use std::marker::Model;

/// What a path says of the setup of an item in a period.
#[derive(Clone, Copy, Debug, PartialEq, Eq)]
pub enum Held {
    /// Nothing.
    Free,
    /// It is at least 1, by the bound of this number on the path, counted from 1.
    AtLeastOne(u32),
    /// It is at most 0, by the bound of this number on the path.
    AtMostZero(u32),
}

/// What a path says of each setup, by item and period.
#[derive(Debug, Drop)]
pub struct Fixed {
    items: Vec<Vec<Held>>,
}

impl Model for Fixed {
    ghost use Rattle.std.specs.Prelude.{List, map};
    ghost use Rattle.node_setups.specs.declared.fixed.Held.{Held};

    ghost Value = { List (List Held) };

    ghost view = { λ f. map (λ line. line.items) f.items.items };
}

// What one bound of a setup says.
fn held_by(most: bool, number: u64, place: u32) -> Held
    ensures { result ≡ held_by most number place }
{
    match (most, number) {
        (true, 0) => Held::AtMostZero(place),
        (true, _) => Held::Free,
        (false, 0) => Held::Free,
        (false, _) => Held::AtLeastOne(place),
    }
}

impl Fixed {
    // Whether there is such a setup.
    #[tactic(auto, using(crate::proofs::Places::line_map))]
    fn is_place(&self, item: u32, period: u32) -> bool
        ensures { IsTrue result ↔ HasCell self.now item period }
    {
        if item < 1 || period < 1 || item as usize > self.items.len() {
            return false;
        }
        period as usize <= self.items[(item - 1) as usize].len()
    }

    /// What is said of the setups of an item, by period; nothing where there is no such item. It takes no memory.
    #[tactic(auto, using(crate::proofs::Places::line_map))]
    pub fn line(&self, item: u32) -> &[Held]
        ensures inside { 1 ≤ item → item ≤ length self.now → result.now ≡ line_of self.now item }
        ensures outside { length self.now < item → result.now ≡ [] }
    {
        if item < 1 || item as usize > self.items.len() {
            return &[];
        }
        self.items[(item - 1) as usize].as_slice()
    }

    /// What is said of the setup of an item in a period, both counted from 1; nothing outside. It takes no memory.
    #[tactic(auto, using(crate::proofs::Places::line_map))]
    pub fn get(&self, item: u32, period: u32) -> Held
        ensures inside { HasCell self.now item period → result ≡ held_at self.now item period }
        ensures outside { (HasCell self.now item period → ⊥) → result ≡ Free }
    {
        if self.is_place(item, period) {
            self.items[(item - 1) as usize][(period - 1) as usize]
        } else {
            Held::Free
        }
    }

    // Another thing is said of a setup, where there is one.
    #[tactic(auto, using(crate::proofs::Places::line_map, crate::proofs::Places::set_map))]
    fn write(&mut self, item: u32, period: u32, held: Held)
        ensures { HasCell self.old item period → self.new ≡ with_held self.old item period held }
    {
        if item < 1 || period < 1 {
            return;
        }
        let (line, place) = ((item - 1) as usize, (period - 1) as usize);
        if line < self.items.len() && place < self.items[line].len() {
            self.items[line][place] = held;
        }
    }

    /// Another thing is said of a setup, both its item and its period counted from 1; nothing is done outside.
    #[tactic(auto, using(crate::proofs::Places::held_here, crate::proofs::Places::held_outside))]
    pub fn hold(&mut self, item: u32, period: u32, held: Held)
        ensures { IsHeld self.old item period held self.new }
    {
        if self.is_place(item, period) {
            self.write(item, period, held);
        }
    }

    // Something is said of a setup, or nothing.
    #[tactic(auto, using(crate::proofs::Places::put_none))]
    fn put(&mut self, item: u32, period: u32, held: Held)
        ensures { IsPutOver (Y item period) held self.old self.new }
    {
        match held {
            Held::Free => {}
            _ => self.hold(item, period, held),
        }
    }

    // A bound says something where it is one of a setup that leaves one value.
    fn take(&mut self, bound: &Bound, number: u32)
        ensures { IsPutOver bound.now.column (held_by bound.now.most bound.now.number number)
            self.old self.new }
    {
        let held = held_by(bound.most, bound.number, number);
        if let Column::Y { item, period } = bound.column {
            self.put(item, period, held);
        }
    }
}

// Nothing is said of any setup.
#[tactic(auto, using(crate::proofs::Places::lines_more))]
fn free_setups(alloc: Global, items: u32, periods: u32) -> Result<Fixed, AllocError>
    ensures { IfOk result (λ fixed. fixed ≡ replicate items (replicate periods Free)) }
{
    let mut all = Vec::with_capacity(alloc, items as usize)?;
    for _ in 0..items {
        let mut line = Vec::new(alloc);
        line.resize(periods as usize, Held::Free)?;
        all.push(line)?;
    }
    Ok(Fixed { items: all })
}

/// What the bounds of a path say of each setup. The error is that memory ran out. It takes time in the number of cells and
/// in the length of the path.
pub fn fixed_setups(alloc: Global, instance: &Instance, path: &[Bound]) -> Result<Fixed, AllocError>
    ensures last { length path.now < 2 ^ 32
        → IfOk result (λ fixed. (i t : ℕ) → IsCell instance.now i t
        → IsLastHeld path.now fixed i t) }
{
    let mut fixed = free_setups(alloc, instance.items(), instance.periods())?;
    let mut number = 0u32;
    for bound in path {
        number = number.saturating_add(1);
        fixed.take(bound, number);
    }
    Ok(fixed)
}
