// Numbers as they are shown.
ghost use Rattle.std.specs.Prelude.{◌≡◌, ◌≤◌, ◌<◌, ◌^◌, Some};
ghost use Rattle.plan_page.specs.Numbers.{grouped, last_digits, paint_text, percent, permille, share};

use std::fmt;

/// A number in groups of three digits, with commas between.
#[derive(Clone, Copy)]
pub struct Grouped(pub u128);

// The last three digits of a number, after a comma.
#[derive(Clone, Copy)]
struct LastDigits(u128);

impl fmt::Display for LastDigits {
    ghost output = { λ number. Some (last_digits number.0) };

    #[tactic(auto, unfolding(crate::specs::Numbers::last_digits))]
    fn fmt<W: fmt::Write>(&self, f: &mut fmt::Formatter<W>) -> fmt::Result {
        let hundreds = self.0 / 100 % 10;
        let tens = self.0 / 10 % 10;
        let ones = self.0 % 10;
        write!(f, ",{hundreds}{tens}{ones}")
    }
}

impl fmt::Display for Grouped {
    ghost output = { λ number. Some (grouped number.0) };

    fn fmt<W: fmt::Write>(&self, f: &mut fmt::Formatter<W>) -> fmt::Result {
        let number = self.0;
        if number < 1000 {
            return write!(f, "{number}");
        }
        Grouped(number / 1000).fmt(f)?;
        let last = LastDigits(number);
        write!(f, "{last}")
    }
}

/// The classes of an item's marks: one of eight colours, and one of five edges.
#[derive(Clone, Copy)]
pub struct Paint(pub u32);

impl fmt::Display for Paint {
    ghost output = { λ item. Some (paint_text item.0) };

    #[tactic(auto, unfolding(crate::specs::Numbers::paint_text))]
    fn fmt<W: fmt::Write>(&self, f: &mut fmt::Formatter<W>) -> fmt::Result {
        let place = self.0.saturating_sub(1);
        let colour = place % 8;
        let edge = place / 8;
        write!(f, "c{colour} e{edge}")
    }
}

/// How many hundredths of the whole a part is, rounded down.
#[tactic(auto, unfolding(crate::specs::Numbers::percent))]
pub fn percent(part: u128, whole: u128) -> u128
    requires { part < 2 ^ 120 }
    ensures { result ≡ percent part whole }
{
    part * 100 / whole.max(1)
}

/// How many hundredths of the whole a part is, to the nearest.
#[tactic(auto, unfolding(crate::specs::Numbers::share))]
pub fn share(part: u128, whole: u128) -> u128
    requires part { part < 2 ^ 110 }
    requires whole { whole < 2 ^ 120 }
    ensures { result ≡ share part whole }
{
    (part * 200 + whole) / (whole * 2).max(1)
}

/// How many thousandths of the whole a part is, rounded up.
#[tactic(auto, unfolding(crate::specs::Numbers::permille))]
pub fn permille(part: u128, whole: u128) -> u128
    requires part { part < 2 ^ 110 }
    requires whole { whole < 2 ^ 120 }
    ensures { result ≡ permille part whole }
{
    (part * 1000).div_ceil(whole.max(1))
}
