// Shares of the costs of backlogs, by period.
ghost use Rattle.std.specs.Prelude.{◌≡◌, ◌≤◌, ◌-◌, length, slice_index_or};

use std::marker::Model;

/// What a unit that falls short costs by the end of each period: one number for each, from the first on.
#[derive(Debug, Drop)]
pub struct Shares {
    list: Vec<u64>,
}

impl Model for Shares {
    ghost use Rattle.std.specs.Prelude.{ℕ, List};

    ghost Value = { List ℕ };

    ghost view = { λ s. s.list.items };
}

impl Shares {
    /// These numbers.
    pub fn new(list: Vec<u64>) -> Shares
        ensures { result ≡ list.items }
    {
        Shares { list }
    }

    /// How many there are.
    pub fn len(&self) -> usize
        ensures { result ≡ length self.now }
    {
        self.list.len()
    }

    /// That of a period, counted from 1, and 0 past the last one.
    pub fn of(&self, period: u32) -> u64
        requires { 1 ≤ period }
        ensures { result ≡ slice_index_or self.now (period - 1) 0 }
    {
        match self.list.get((period - 1) as usize) {
            Some(share) => *share,
            None => 0,
        }
    }

    /// All of them.
    pub fn as_slice(&self) -> &[u64]
        ensures { result.now ≡ self.now }
    {
        &self.list
    }
}
