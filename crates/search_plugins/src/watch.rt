// What is told of a search, and may end it.
ghost use Rattle.std.specs.Prelude.{◌≡◌, ◌&&◌, Bool, true, false};

/// What is told of a search, and may end it before its budget is used up. It promises nothing else, and can change nothing but
/// itself: it is given numbers alone.
///
/// Costs and bounds are amounts of money.
pub trait Watch {
    /// Whether it may end a search. This never changes.
    ghost may_stop: { Self → Bool };

    /// A node with so many branches above it has a leaf that says `says`, an amount that no plan there costs less than, or None
    /// where it says that there is no plan; the best plan so far costs `best`, None where there is none.
    fn node(&mut self, depth: usize, says: Option<u128>, best: Option<u128>)
        ensures { may_stop self.new ≡ may_stop self.old };

    /// A pass over the tree is to begin: no plan costs less than `bound`, None where no leaf is open, and the best plan so far
    /// costs `best`, None where there is none.
    fn pass(&mut self, bound: Option<u128>, best: Option<u128>)
        ensures { may_stop self.new ≡ may_stop self.old };

    /// Whether the search is to end now. It is asked before each pass over the tree and before each branch, until it says so.
    fn stops(&mut self) -> bool
        ensures kept { may_stop self.new ≡ may_stop self.old }
        ensures never { may_stop self.old ≡ false → result ≡ false };
}

// Nobody is told, and nothing is ended.
impl Watch for () {
    ghost may_stop = { λ _. false };

    fn node(&mut self, _depth: usize, _says: Option<u128>, _best: Option<u128>) {}

    fn pass(&mut self, _bound: Option<u128>, _best: Option<u128>) {}

    fn stops(&mut self) -> bool {
        false
    }
}

// What is lent is told and asked, and can be read afterwards.
impl<W: Watch> Watch for &mut W {
    ghost may_stop = { λ w. W.may_stop w.now };

    fn node(&mut self, depth: usize, says: Option<u128>, best: Option<u128>) {
        (**self).node(depth, says, best);
    }

    fn pass(&mut self, bound: Option<u128>, best: Option<u128>) {
        (**self).pass(bound, best);
    }

    fn stops(&mut self) -> bool {
        (**self).stops()
    }
}

/// Tells another one all, and never ends a search.
#[derive(Debug, Drop)]
pub struct Unstopped<W> {
    /// The one that is told.
    pub told: W,
}

impl<W: Watch> Watch for Unstopped<W> {
    ghost may_stop = { λ _. false };

    fn node(&mut self, depth: usize, says: Option<u128>, best: Option<u128>) {
        self.told.node(depth, says, best);
    }

    fn pass(&mut self, bound: Option<u128>, best: Option<u128>) {
        self.told.pass(bound, best);
    }

    fn stops(&mut self) -> bool {
        false
    }
}

/// Tells another one all, and ends a search where that one does, if it is allowed to.
#[derive(Debug, Drop)]
pub struct Limited<W> {
    /// The one that is told and, if it is allowed to end a search, asked.
    pub told: W,
    /// Whether it is allowed to.
    pub is_limited: bool,
}

impl<W: Watch> Watch for Limited<W> {
    ghost may_stop = { λ w. w.is_limited && W.may_stop w.told };

    fn node(&mut self, depth: usize, says: Option<u128>, best: Option<u128>) {
        self.told.node(depth, says, best);
    }

    fn pass(&mut self, bound: Option<u128>, best: Option<u128>) {
        self.told.pass(bound, best);
    }

    fn stops(&mut self) -> bool {
        self.is_limited && self.told.stops()
    }
}
