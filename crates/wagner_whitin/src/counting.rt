// Comparisons that are counted.
ghost use Rattle.std.specs.Prelude.{◌≡◌, ◌+◌, ◌<◌, ◌≤◌, ◌↔◌, ℕ, Bool, true, false, ◌<ℤ◌, ◌≤ℤ◌};

use std::marker::Model;
use std::sync::ledger::{Blank, Book, Ledger, Share};

/// How many comparisons were made. It takes no bytes, and only `less_counted` changes it.
#[derive(Drop)]
pub struct Steps<L: Ledger> {
    book: Book<L>,
    share: Share<L>,
}

impl<L: Ledger> Model for Steps<L> {
    ghost Value = { ℕ };

    ghost view = { λ s. s.book.total };

    ghost invariant = { λ s. 0 < s.share.parts };
}

impl<L: Ledger> Steps<L> {
    /// No steps yet.
    pub fn new(blank: Blank) -> Steps<L>
        requires name { blank.name ≡ L.name }
        requires parts { blank.parts ≡ L.parts }
        requires some { 0 < L.parts }
        ensures none { result ≡ 0 }
    {
        let (book, share) = blank.open::<L>();
        Steps { book, share }
    }
}

/// Whether the left number is less, as one step.
pub fn less_counted<L: Ledger>(left: i128, right: i128, steps: &mut Steps<L>) -> bool
    ensures less { result ≡ true → left <ℤ right }
    ensures not_less { result ≡ false → right ≤ℤ left }
    ensures step { steps.new ≡ steps.old + 1 }
{
    steps.book.add(&mut steps.share, 1);
    left < right
}
