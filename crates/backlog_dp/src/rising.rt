// Whether potentials rise over some block of a server by more than it costs, in one pass over the positions.
ghost use Rattle.std.specs.Prelude.{◌≡◌, ◌≤◌, ◌*◌, ◌^◌, ◌↔◌, ◌||◌, length, nat_le, IfSome, IsTrue};
ghost use Rattle.lot_sizing.specs.Sums.{sum_to};
ghost use Rattle.lot_sizing.specs.Problem.{AllAtMost, entry};
ghost use Rattle.lot_sizing.specs.declared.limits.TheConstants.{MAX_PERIODS};
ghost use Rattle.echelon_rows.specs.declared.limits.TheConstants.{MAX_STEP};
ghost use Rattle.backlog_dp.specs.Search.{HoldsTo, IsSmallStart, kept_of, lower_of, rises_past};

/// Where a block may begin.
#[derive(Clone, Copy)]
pub struct Start {
    /// The potential before its first position.
    pub potential: u128,
    /// What serving the positions before it costs.
    pub spent: u128,
}

/// Whether a period may serve another one: it is no later where no backlog is allowed.
pub fn may_serve(backlogged: bool, server: u32, period: u32) -> bool
    ensures { result ≡ (backlogged || nat_le server period) }
{
    backlogged || server <= period
}

// Of two starts the one from which a block may reach less.
fn lower(kept: Start, other: Start) -> Start
    requires kept { IsSmallStart kept }
    requires other { IsSmallStart other }
    ensures { result ≡ lower_of kept other }
{
    if other.potential + kept.spent <= kept.potential + other.spent {
        other
    } else {
        kept
    }
}

// What is kept once another start has come, at which the server's block may begin or not.
fn with_start(kept: Option<Start>, other: Start, serves: bool) -> Option<Start>
    requires kept { IfSome kept IsSmallStart }
    requires other { IsSmallStart other }
    ensures { result ≡ kept_of kept other serves }
{
    if !serves {
        return kept;
    }
    match kept {
        Some(least) => Some(lower(least, other)),
        None => Some(other),
    }
}

// Whether potentials rise from a start by more than a setup and what was spent since.
fn rises_past(kept: Option<Start>, reached: Start, setup: u64) -> bool
    requires kept { IfSome kept IsSmallStart }
    requires reached { IsSmallStart reached }
    ensures { result ≡ rises_past kept reached setup }
{
    match kept {
        Some(start) => {
            let most = start.potential + u128::from(setup) + reached.spent;
            reached.potential + start.spent > most
        }
        None => false,
    }
}

/// Whether potentials rise over no block of a server by more than it costs. The lists have an entry for each
/// position: its potential, what it costs that the server serves it, and its period. It takes time in the
/// number of positions.
pub fn holds_for(
    steps: &[u128],
    costs: &[u128],
    periods: &[u32],
    setup: u64,
    backlogged: bool,
    server: u32,
) -> bool
    requires steps { AllAtMost MAX_STEP steps.now }
    requires size { length costs.now ≡ length steps.now }
    requires periods { length periods.now ≡ length steps.now }
    requires costs { sum_to (length costs.now) (entry costs.now) ≤ MAX_PERIODS * MAX_STEP }
    ensures { IsTrue result ↔ HoldsTo steps.now costs.now periods.now setup backlogged server
        (length steps.now) }
{
    let mut kept = None;
    let mut here = Start {
        potential: 0,
        spent: 0,
    };
    for last in 1..steps.len() + 1 {
        let serves = may_serve(backlogged, server, periods[last - 1]);
        kept = with_start(kept, here, serves);
        here = Start {
            potential: steps[last - 1],
            spent: here.spent + costs[last - 1],
        };
        if rises_past(kept, here, setup) {
            return false;
        }
    }
    true
}
