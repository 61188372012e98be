// Exact sums, with room for what is added.
ghost use Rattle.std.specs.Prelude.{◌≡◌, ◌<◌, ◌^◌, ◌↔◌, ◌*ℤ◌, IsTrue};
ghost use Rattle.lin_rows.specs.Sums.{FitsAdded, IsTotal, no_total, with_more};

// The least amount that is too large.
const LIMIT: u128 = 1 << 127;

/// What has been added up of numbers: their sum, and the sum of their absolute values, which stays below
/// 2^127.
#[derive(Clone, Copy, Debug, PartialEq, Eq)]
pub struct Total {
    /// The sum.
    pub sum: i128,
    /// The sum of the absolute values of all that was added.
    pub amount: u128,
}

// Below this in size, two numbers have a product that needs no test.
const HALF: u128 = 1 << 63;

impl Total {
    /// Nothing added yet.
    pub fn none() -> Total
        ensures value { result ≡ no_total }
        ensures total { IsTotal result }
    {
        Total { sum: 0, amount: 0 }
    }

    /// Whether a multiple of a number can be added: the amount stays below 2^127.
    pub fn fits_added(self, times: i128, number: i128) -> bool
        requires { self.amount < 2 ^ 127 }
        ensures { IsTrue result ↔ FitsAdded self (times *ℤ number) }
    {
        let (times, number) = (times.unsigned_abs(), number.unsigned_abs());
        if times < HALF && number < HALF {
            return times * number < LIMIT - self.amount;
        }
        match times.checked_mul(number) {
            Some(product) => product < LIMIT - self.amount,
            None => false,
        }
    }

    /// The total with a multiple of a number added, for which there is room.
    pub fn with_more(self, times: i128, number: i128) -> Total
        requires total { IsTotal self }
        requires room { FitsAdded self (times *ℤ number) }
        ensures value { result ≡ with_more self (times *ℤ number) }
        ensures total { IsTotal result }
    {
        let product = times * number;
        Total {
            sum: self.sum + product,
            amount: self.amount + product.unsigned_abs(),
        }
    }
}
