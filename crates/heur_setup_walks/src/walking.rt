// A walk from setups to setups by what programs cost.
ghost use Rattle.std.specs.Prelude.{IfSome, OnOk};
ghost use Rattle.plan_rules.specs.Rows.{IfFound};
ghost use Rattle.own_plan.specs.Made.{IsMade};

use crate::changing::{below, change};
use crate::frame::{Frame, MONEY};
use crate::rounding::{Order, whole_plan};
use integer_grids::numbers::{less, of_total, plus, times};
use lot_model::Instance;
use plan_rules::Planned;
use rand_pcg::Lcg64Xsh32;
use std::alloc::{AllocError, Global};
use work_clock::Deadline;

// The random changes are drawn on this stream.
const STREAM: u64 = 54;

// Setups are taken whose program costs at most one part more of so many, and less and less towards the end.
const SLACK_PARTS: i64 = 100;

const THOUSAND: i64 = 1_000;

const MILLION: i64 = 1_000_000;

// So many plans are made at most of setups whose program isn't the cheapest one so far.
const MOST_TRIALS: u32 = 100;

/// Setups, and what their program costs.
#[derive(Drop)]
pub(crate) struct Setups {
    pub(crate) open: Vec<bool>,
    pub(crate) cost: i64,
}

// How much more the next setups may cost, where so many thousandths of the walk are left.
fn slack(words: &mut Lcg64Xsh32, cost: i64, left: i64) -> i64 {
    let part = times(i64::from(below(words, 1_000)), left);
    times(cost / SLACK_PARTS, part) / MILLION
}

// Setups that differ from these by a random change, if they cost at most this.
fn changed(
    alloc: Global,
    instance: &Instance,
    frame: &Frame,
    setups: &Setups,
    most: i64,
    words: &mut Lcg64Xsh32,
) -> Result<Option<Setups>, AllocError> {
    let mut open = setups.open.as_slice().to_vec(alloc)?;
    change(instance, &mut open, words);
    match frame.cost_of(alloc, &open, most)? {
        Some(cost) => Ok(Some(Setups { open, cost })),
        None => Ok(None),
    }
}

// Keeps a plan, if it costs less than the best one so far.
fn keep(_instance: &Instance, best: &mut Option<Planned>, found: Option<Planned>)
    requires found { IfSome found (IsMade _instance.now) }
    requires best { IfSome best.old (IsMade _instance.now) }
    ensures { IfSome best.new (IsMade _instance.now) }
{
    let Some(planned) = found else {
        return;
    };
    let is_better = match best {
        Some(other) => planned.cost < other.cost,
        None => true,
    };
    if is_better {
        *best = Some(planned);
    }
}

// What the best plan costs, in the parts in which costs are counted, and at most this.
fn least_of(best: &Option<Planned>, most: i64) -> i64 {
    match best {
        Some(planned) => times(of_total(planned.cost), MONEY).min(most),
        None => most,
    }
}

/// Where a walk stands.
#[derive(Drop)]
pub(crate) struct Tour<'a> {
    instance: &'a Instance,
    frame: &'a Frame,
    here: Setups,
    // The least cost of a program so far.
    least: i64,
    words: Lcg64Xsh32,
    // So many plans may still be made of setups that aren't the cheapest ones.
    trials: u32,
}

impl<'a> Tour<'a> {
    /// A walk that begins at these setups.
    pub(crate) fn new(
        instance: &'a Instance,
        frame: &'a Frame,
        from: Setups,
        seed: u64,
    ) -> Tour<'a> {
        Tour {
            instance,
            frame,
            here: from,
            least: i64::MAX,
            words: Lcg64Xsh32::new(seed, STREAM),
            trials: MOST_TRIALS,
        }
    }

    // Goes to setups that differ by a random change, where they don't cost much more. It says whether it went.
    fn go(&mut self, alloc: Global, left: i64) -> Result<bool, AllocError> {
        let cost = self.here.cost;
        let most = plus(cost, slack(&mut self.words, cost, left));
        let next = changed(
            alloc,
            self.instance,
            self.frame,
            &self.here,
            most,
            &mut self.words,
        )?;
        match next {
            Some(next) => {
                self.here = next;
                Ok(true)
            }
            None => Ok(false),
        }
    }

    // Whether a plan is to be made here that costs less than this.
    fn is_worth_a_plan(&mut self, limit: i64) -> bool {
        let cost = self.here.cost;
        let is_least = cost < self.least;
        self.least = self.least.min(cost);
        let half = less(limit, less(limit, self.least) / 2);
        if cost >= limit || !is_least && (cost >= half || self.trials == 0) {
            return false;
        }
        self.trials = self.trials.saturating_sub(1);
        true
    }
}

// Plans with the setups where a walk stands that cost less than this and than the best one.
fn keep_rounded(
    alloc: Global,
    instance: &Instance,
    tour: &Tour,
    order: Order,
    best: &mut Option<Planned>,
) -> Result<(), AllocError>
    requires { IfSome best.old (IsMade instance.now) }
    ensures { OnOk result (IfSome best.new (IsMade instance.now)) }
{
    let limit = least_of(best, i64::MAX);
    let found = whole_plan(alloc, instance, tour.frame, &tour.here.open, order, limit)?;
    keep(instance, best, found);
    Ok(())
}

// Plans with the setups where a walk stands, if it is worth while.
fn plan_here(
    alloc: Global,
    instance: &Instance,
    tour: &mut Tour,
    best: &mut Option<Planned>,
) -> Result<(), AllocError>
    requires { IfSome best.old (IsMade instance.now) }
    ensures { OnOk result (IfSome best.new (IsMade instance.now)) }
{
    if !tour.is_worth_a_plan(least_of(best, i64::MAX)) {
        return Ok(());
    }
    keep_rounded(alloc, instance, tour, Order::Nearest, best)?;
    keep_rounded(alloc, instance, tour, Order::Earliest, best)
}

/// The cheapest plan that a walk of so many steps finds from where it stands. It ends early when it is time.
pub(crate) fn walk(
    alloc: Global,
    instance: &Instance,
    mut tour: Tour<'_>,
    steps: u32,
    until: Deadline,
) -> Result<Option<Planned>, AllocError>
    ensures { IfFound result (IsMade instance.now) }
{
    let mut best = None;
    for step in 0..steps {
        let left = times(i64::from(steps - step), THOUSAND) / i64::from(steps).max(1);
        if until.is_past() {
            return Ok(best);
        }
        if tour.go(alloc, left)? {
            plan_here(alloc, instance, &mut tour, &mut best)?;
        }
    }
    Ok(best)
}
