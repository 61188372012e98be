// What the search of a problem is given.
ghost use Rattle.std.specs.Prelude.{◌≡◌};
ghost use Rattle.command_line.specs.Meant.{search_by};
ghost use Rattle.lotplan.specs.Finding.{only};
ghost use Rattle.lotplan.specs.Planning.{sought_by};

use certificate::MAX_CERT_VERSION;
use command_line::Search;

/// What the search of a problem is given.
#[derive(Clone, Copy, Debug)]
pub struct Sought {
    /// The most nodes that the certificate's tree may have.
    pub budget: u64,
    /// What the plan costs that the search starts from, in money, if there is one.
    pub begins: Option<u128>,
    /// The gap between bound and cost at which it may end, in hundredths of a percent of the cost, if one is given.
    pub gap: Option<u32>,
    /// Whether it may be told to end.
    pub may_stop: bool,
    /// The newest version that the certificate's text may have.
    pub newest: u32,
}

/// A search with a budget alone, whose certificate may have any version.
pub fn only(budget: u64) -> Sought
    ensures { result ≡ only budget }
{
    Sought {
        budget,
        begins: None,
        gap: None,
        may_stop: false,
        newest: MAX_CERT_VERSION,
    }
}

/// The search that words ask for, from a plan of this cost or from none.
pub fn sought_by(search: Search<'_>, begins: Option<u128>) -> Sought
    ensures { result ≡ sought_by (search_by search.entry) begins }
{
    Sought {
        budget: search.budget,
        begins,
        gap: search.gap,
        may_stop: search.seconds.is_some(),
        newest: search.newest,
    }
}
