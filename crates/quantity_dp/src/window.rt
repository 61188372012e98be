// The least price of a window of quantities that moves up.
ghost use Rattle.std.specs.Prelude.{ℕ, Option, IfOk};
ghost use Rattle.quantity_dp.specs.Window.{IsLeastIn, IsWindow, KeepsCheaper, LeavesBelow, TakesNext};

use std::alloc::{AllocError, Global};

// A quantity and its price.
#[derive(Clone, Copy)]
pub struct Priced {
    pub quantity: u64,
    pub price: u128,
}

/// The prices of a window of quantities of which each is lower than all later ones (a monotone queue). Those before
/// the first have left the window.
#[derive(Drop)]
pub struct Window {
    pub rising: Vec<Priced>,
    pub first: usize,
}

// How many are left where from the end all are dropped that aren't cheaper, down to the first.
fn cheaper_than(rising: &[Priced], first: usize, price: u128) -> usize
    ensures { KeepsCheaper rising.now first price result }
{
    let mut kept = rising.len();
    'back: while kept > first {
        if rising[kept - 1].price < price {
            return kept;
        }
        kept -= 1;
    }
    kept
}

impl Window {
    /// A window of no quantities.
    pub fn new(alloc: Global) -> Window
        ensures { (w : ℕ → Option ℕ) (at : ℕ) → IsWindow w at at result }
    {
        Window {
            rising: Vec::new(alloc),
            first: 0,
        }
    }

    /// The window takes the next quantity, with its price where it has one.
    pub fn take(&mut self, quantity: u64, price: Option<u128>) -> Result<(), AllocError>
        ensures { IfOk result (λ _. TakesNext self.old self.new quantity price) }
    {
        let Some(price) = price else {
            return Ok(());
        };
        let kept = cheaper_than(&self.rising, self.first, price);
        self.rising.truncate(kept);
        self.rising.push(Priced { quantity, price })?;
        Ok(())
    }

    /// The quantity below this one, the least of the window, leaves it where it is there.
    pub fn leave(&mut self, least: u64)
        ensures { LeavesBelow self.old self.new least }
    {
        if self.first < self.rising.len() && self.rising[self.first].quantity < least {
            self.first += 1;
        }
    }

    /// The least price in the window, and none where it has none.
    pub fn least(&self) -> Option<u128>
        ensures { (w : ℕ → Option ℕ) (low high : ℕ) → IsWindow w low high self.now
            → IsLeastIn w low high result }
    {
        if self.first < self.rising.len() {
            return Some(self.rising[self.first].price);
        }
        None
    }
}
