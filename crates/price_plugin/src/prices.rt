// Leaves by rounds of prices of capacity and of stock.
ghost use Rattle.std.specs.Prelude.{◌≡◌, ◌<◌, ◌^◌, IfOk, IfSome};
ghost use Rattle.cert_lines.specs.Shapes.{leaf_parts, leaf_shape};
ghost use Rattle.leaf_growth.specs.Growth.{IsOfRows};
ghost use Rattle.plan_rules.specs.Rows.{IfFound};
ghost use Rattle.price_leaves.specs.Proposals.{IsProposal as IsPricedProposal};
ghost use Rattle.search_plugins.specs.Proposals.{IsProposal};

use cert_lines::{Leaf, Part};
use echelon::Explosion;
use lot_model::Instance;
use node_branching::{Choice, Gains, Note, Notes, Trials, choice_for, split_of};
use price_groups::Grouping;
use price_leaves::{
    Average, DualPrices, Fixed, Grouped, Improved, NodePricing, Priced, Pricing, Reached, Rounds,
    dropped_grouped_leaf, dropped_leaf, fixed_setups, grouped_leaf, priced_leaf, split_prices,
    tune_openings,
};
use search_plugins::{LeafWanted, OpenNode, Progress, Proposed, Proposer};
use std::alloc::{AllocError, Global};
use tree_search::{Node, Range};
use work_clock::Deadline;

// At the root so many times so many rounds are made, with plans in between; at another node once.
const ROOT_TIMES: u32 = 20;

const ROOT_ROUNDS: u32 = 15;

const NODE_ROUNDS: u32 = 40;

// How often rounds are made at a node, at most: as long as each time closes a part of the gap to the incumbent.
const NODE_TIMES: u32 = 2;

const NODE_PART: i128 = 30;

// A larger model has fewer rounds at a node: so many for a single item and period, and at least some.
const NODE_WORK: u32 = 20_000;

const LEAST_ROUNDS: u32 = 5;

// Where items are planned in groups the rounds of one time take so many steps of their recursions at the root, and so many at
// another node, but some rounds are made.
const ROOT_STEPS: u64 = 160_000_000;

const NODE_STEPS: u64 = 60_000_000;

const FEWEST_ROUNDS: u32 = 2;

// Before the first node so many rounds are made on trial, with items in groups, with each by itself and in whole quantities; those with
// groups take so many steps.
const TRIAL_ROUNDS: u32 = 60;

const TRIAL_STEPS: u64 = 640_000_000;

// Where the search ends by a clock, it is read before each of so many equal parts of these rounds.
const TRIAL_PARTS: u32 = 6;

// Where fewer rounds with groups go within these steps, so many are made first with each item by itself.
const FIRST_ROUNDS: u32 = 400;

// Whole quantities are to gain one part in so many of what rounds come to without them: their rounds take longer.
const WHOLE_PARTS: i128 = 200;

// Branches are tried before one is chosen in a model with at most so many items times periods, by so many rounds on each side; those with
// groups take so many steps.
const TRIED_SIZE: u32 = 400;

const TRIED_ROUNDS: u32 = 40;

const TRIED_STEPS: u64 = 12_000_000;

/// What prices of a model are made with, the notes of its nodes, what branches gained that were tried, and the prices from which the
/// root's rounds begin, where it isn't the split of the holding costs.
#[derive(Debug, Drop)]
pub struct Pricings {
    pricing: Pricing,
    notes: Notes,
    gains: Gains,
    first: Option<DualPrices>,
}

/// The rounds of a node, and what its path says of setups.
#[derive(Debug, Drop)]
pub struct Round {
    rounds: Rounds,
    fixed: Fixed,
    is_refuted: bool,
}

/// Leaves by rounds of prices: at the root up to 300 in 20 times, with plans in between, from the split of the holding costs;
/// at a node below up to 40 and some more, from what those of the node above came to.
#[derive(Clone, Copy)]
pub struct Prices {
    /// When rounds are to end, and branches to be tried, where the search ends by a clock.
    pub until: Deadline,
}

// The prices from which rounds begin where there is no node above: these, or the split of the holding costs.
fn first_prices(
    alloc: Global,
    node: NodePricing<'_>,
    first: Option<&DualPrices>,
) -> Result<DualPrices, AllocError> {
    match first {
        Some(prices) => prices.copy(alloc),
        None => split_prices(alloc, node.instance, node.pricing),
    }
}

// The rounds at a node, from what those of the node above came to, if anything, or from the first prices.
fn first_rounds(
    alloc: Global,
    node: NodePricing<'_>,
    above: Option<Note>,
    first: Option<&DualPrices>,
) -> Result<Rounds, AllocError> {
    match above {
        Some(
            Note {
                prices,
                average,
                ..
            },
        ) => Rounds::start(alloc, node, prices, Some(average)),
        None => {
            let prices = first_prices(alloc, node, first)?;
            Rounds::start(alloc, node, prices, None)
        }
    }
}

// How often rounds are made at a node.
fn times_at(node: &Node) -> u32 {
    if node.path.is_empty() { ROOT_TIMES } else { 1 }
}

// How many rounds there is work for, where items are planned in groups; as many as are wanted where they aren't.
fn within_work(instance: &Instance, pricing: &Pricing, work: u64, wanted: u32) -> u32 {
    match pricing.grouping() {
        Some(grouping) => {
            let steps = grouping.steps(instance.periods()).max(1);
            let count = u32::try_from(work / steps).unwrap_or(wanted);
            count.max(FEWEST_ROUNDS).min(wanted)
        }
        None => wanted,
    }
}

// Whether rounds in groups take so long that fewer of them are made on trial than are wanted.
fn is_long(instance: &Instance, grouping: &Grouping) -> bool {
    let steps = grouping.steps(instance.periods()).max(1);
    TRIAL_STEPS / steps < u64::from(TRIAL_ROUNDS)
}

// How rounds are made on trial: of a model, from these prices where it isn't the split of the holding costs, and no longer than to
// this time.
#[derive(Clone, Copy)]
struct Trying<'a> {
    instance: &'a Instance,
    first: Option<&'a DualPrices>,
    until: Deadline,
}

// Rounds at the root, so many of them, on trial.
fn rounds_on_trial(
    alloc: Global,
    trying: Trying<'_>,
    pricing: &Pricing,
    count: u32,
) -> Result<Rounds, AllocError> {
    let Trying {
        instance,
        first,
        until,
    } = trying;
    let fixed = fixed_setups(alloc, instance, &[])?;
    let node = NodePricing {
        instance,
        pricing,
        fixed: &fixed,
    };
    let mut rounds = first_rounds(alloc, node, None, first)?;
    if until.millis_left().is_none() {
        let _ = rounds.go_on(alloc, node, None, count)?;
        return Ok(rounds);
    }
    for _part in 0..TRIAL_PARTS {
        if until.is_past() {
            break;
        }
        let _ = rounds.go_on(alloc, node, None, (count / TRIAL_PARTS).max(1))?;
    }
    Ok(rounds)
}

// Whether one number is more than another; not so where it doesn't fit.
fn is_more(one: Option<i128>, other: Option<i128>) -> bool {
    match (one, other) {
        (Some(one), Some(other)) => one > other,
        (Some(_), None) => true,
        (None, _) => false,
    }
}

// Whether one number is more than another by some part of it; not so where it doesn't fit.
fn is_worth(one: Option<i128>, other: Option<i128>) -> bool {
    match (one, other) {
        (Some(one), Some(other)) => {
            one > other.saturating_add(other.saturating_abs() / WHOLE_PARTS)
        }
        (Some(_), None) => true,
        (None, _) => false,
    }
}

// Groups, what rounds on trial come to in them, and the prices that they come to where rounds in the groups take long.
#[derive(Debug, Drop)]
struct Trial {
    grouping: Option<Grouping>,
    number: Option<i128>,
    prices: Option<DualPrices>,
}

// What rounds on trial come to in other groups, which are given back.
fn trial_in(
    alloc: Global,
    trying: Trying<'_>,
    pricing: &mut Pricing,
    grouping: Option<Grouping>,
) -> Result<Trial, AllocError> {
    pricing.set_grouping(grouping);
    let count = within_work(trying.instance, pricing, TRIAL_STEPS, TRIAL_ROUNDS);
    let rounds = rounds_on_trial(alloc, trying, pricing, count)?;
    let number = rounds.number();
    let prices = if trying.first.is_some() {
        Some(rounds.into_improved().prices)
    } else {
        None
    };
    Ok(Trial {
        grouping: pricing.take_grouping(),
        number,
        prices,
    })
}

// What rounds on trial come to in other groups, from these prices.
fn trial_from(
    alloc: Global,
    trying: Trying<'_>,
    prices: &DualPrices,
    pricing: &mut Pricing,
    grouping: Grouping,
) -> Result<Trial, AllocError> {
    let Trying {
        instance,
        until,
        ..
    } = trying;
    let first = Some(prices);
    let from_prices = Trying {
        instance,
        first,
        until,
    };
    trial_in(alloc, from_prices, pricing, Some(grouping))
}

// Groups in which rounds take long, or each item by itself where rounds on trial come to more so. The groups' rounds begin from the
// prices that rounds with each item by itself come to.
fn best_long(
    alloc: Global,
    trying: Trying<'_>,
    pricing: &mut Pricing,
    grouping: Grouping,
) -> Result<Trial, AllocError> {
    pricing.set_grouping(None);
    let rounds = rounds_on_trial(alloc, trying, pricing, FIRST_ROUNDS)?;
    let number = rounds.number();
    let Improved { prices, .. } = rounds.into_improved();
    let together = trial_from(alloc, trying, &prices, pricing, grouping)?;
    Ok(if is_more(number, together.number) {
        Trial {
            grouping: None,
            number,
            prices: Some(prices),
        }
    } else {
        together
    })
}

// The groups of items in lots of any size, or each by itself where rounds on trial come to more so.
fn best_fractions(
    alloc: Global,
    trying: Trying<'_>,
    pricing: &mut Pricing,
) -> Result<Trial, AllocError> {
    let Some(grouping) = pricing.take_grouping() else {
        return trial_in(alloc, trying, pricing, None);
    };
    if is_long(trying.instance, &grouping) {
        return best_long(alloc, trying, pricing, grouping);
    }
    let together = trial_in(alloc, trying, pricing, Some(grouping))?;
    let apart = trial_in(alloc, trying, pricing, None)?;
    Ok(if is_more(apart.number, together.number) {
        apart
    } else {
        together
    })
}

// Other groups, with prices of what is there before the first period, and what rounds on trial come to in them.
fn tuned_trial(
    alloc: Global,
    trying: Trying<'_>,
    pricing: &mut Pricing,
    grouping: Grouping,
) -> Result<Trial, AllocError> {
    let instance = trying.instance;
    pricing.set_grouping(Some(grouping));
    let prices = split_prices(alloc, instance, pricing)?;
    tune_openings(alloc, instance, pricing, &prices, trying.until)?;
    let tuned = pricing.take_grouping();
    trial_in(alloc, trying, pricing, tuned)
}

// Items are planned in those groups in which rounds on trial come to most, or each by itself. Gives the prices from which the root's
// rounds are to begin, where it isn't the split of the holding costs.
fn choose_grouping(
    alloc: Global,
    instance: &Instance,
    pricing: &mut Pricing,
    until: Deadline,
) -> Result<Option<DualPrices>, AllocError> {
    let late = Grouping::late(alloc, instance, pricing.order())?;
    let whole = Grouping::whole(alloc, instance, pricing.order())?;
    if pricing.grouping().is_none() && late.is_none() && whole.is_none() {
        return Ok(None);
    }
    let trying = Trying {
        instance,
        first: None,
        until,
    };
    let mut best = best_fractions(alloc, trying, pricing)?;
    if let Some(late) = late {
        let other = tuned_trial(alloc, trying, pricing, late)?;
        if is_more(other.number, best.number) {
            best = other;
        }
    }
    if let Some(whole) = whole {
        let other = tuned_trial(alloc, trying, pricing, whole)?;
        if is_worth(other.number, best.number) {
            best = other;
        }
    }
    pricing.set_grouping(best.grouping);
    Ok(best.prices)
}

// How many rounds are made at a node each time.
fn count_at(instance: &Instance, pricing: &Pricing, node: &Node) -> u32 {
    if node.path.is_empty() {
        return within_work(instance, pricing, ROOT_STEPS, ROOT_ROUNDS);
    }
    let size = instance.items() * instance.periods();
    let wanted = (NODE_WORK / size.max(1)).min(NODE_ROUNDS).max(LEAST_ROUNDS);
    within_work(instance, pricing, NODE_STEPS, wanted)
}

// The gap between a plan's cost and the Lagrangean bound, times the scale; None where there is no cost, or where it or the bound
// doesn't fit.
fn lack(rounds: &Rounds, cost: Option<u128>) -> Option<i128> {
    let cost = i128::try_from(cost?).ok()?;
    let number = rounds.number()?;
    let scale = i128::from(rounds.prices().scale);
    let lacking = cost.saturating_mul(scale).saturating_sub(number);
    Some(lacking.max(0))
}

// Whether the gap closed by more than 1/`NODE_PART` of it; false where it wasn't known before or isn't now.
fn came_closer(before: Option<i128>, after: Option<i128>) -> bool {
    match (before, after) {
        (Some(before), Some(after)) => before.saturating_sub(after) > before / NODE_PART,
        _ => false,
    }
}

// How long rounds go on: so many at a time, so often while they come to much more, and no longer than to this time.
#[derive(Clone, Copy)]
struct Lengths {
    count: u32,
    times: u32,
    until: Deadline,
}

// Makes rounds, and some more at a node below the root while they come to much more and it isn't time to end.
fn go_further(
    alloc: Global,
    node: NodePricing<'_>,
    rounds: &mut Rounds,
    cost: Option<u128>,
    lengths: Lengths,
) -> Result<Reached, AllocError> {
    for _time in 0..lengths.times {
        let before = lack(rounds, cost);
        match rounds.go_on(alloc, node, cost, lengths.count)? {
            Reached::Open => {}
            reached => return Ok(reached),
        }
        if !came_closer(before, lack(rounds, cost)) || lengths.until.is_past() {
            break;
        }
    }
    Ok(Reached::Open)
}

// Whether the leaf of the rounds is expected to say more than a leaf that says this; not so where their number doesn't fit.
fn is_promising(rounds: &Rounds, says: Option<u128>) -> bool {
    let scale = i128::from(rounds.prices().scale);
    let Some(number) = rounds.number() else {
        return false;
    };
    match says {
        Some(amount) => match i128::try_from(amount) {
            Ok(amount) => number > amount.saturating_mul(scale),
            Err(_) => false,
        },
        None => false,
    }
}

// A leaf by linear duality.
fn linear(den: u128, parts: Vec<Part>) -> Leaf
    requires { den < 2 ^ 64 }
    ensures parts { leaf_parts (leaf_shape result) ≡ parts.items }
    ensures kind { IsOfRows (leaf_shape result) }
{
    Leaf::Linear {
        den: den as i128,
        parts,
    }
}

// What was priced, as it is proposed: by Farkas' lemma where the rounds refute that there is a plan, else by duality.
fn proposed(instance: &Instance, priced: Priced, refuted: bool) -> Proposed
    requires { IsPricedProposal instance.now priced }
    ensures { IsProposal result }
{
    let Priced { cuts, parts, den } = priced;
    if refuted {
        Proposed {
            cuts,
            leaf: Leaf::Farkas { parts },
        }
    } else {
        Proposed {
            cuts,
            leaf: linear(den, parts),
        }
    }
}

// What was priced in groups, as it is proposed: a leaf over reduced costs.
fn proposed_grouped(grouped: Grouped) -> Proposed
    ensures { IsProposal result }
{
    let Grouped {
        cuts,
        parts,
        lists,
        groups,
        den,
    } = grouped;
    Proposed {
        cuts,
        leaf: Leaf::Reduced {
            den,
            parts,
            lists,
            groups,
        },
    }
}

// What is proposed by the rounds of a node where items are planned in groups: cuts from this number on, and parts.
fn grouped_at(
    alloc: Global,
    node: NodePricing<'_>,
    grouping: &Grouping,
    rounds: &Rounds,
    refuted: bool,
    first: u32,
) -> Result<Option<Proposed>, AllocError>
    ensures { IfFound result IsProposal }
{
    let prices = rounds.prices();
    let found = if refuted {
        dropped_grouped_leaf(alloc, node, grouping, prices, first)?
    } else {
        grouped_leaf(alloc, node, grouping, prices, first)?
    };
    match found {
        Some(grouped) => Ok(Some(proposed_grouped(grouped))),
        None => Ok(None),
    }
}

// What is proposed by the rounds of a node where each item is planned by itself: cuts from this number on, and parts.
fn priced_at(
    alloc: Global,
    instance: &Instance,
    pricing: &Pricing,
    work: &Round,
    first: u32,
) -> Result<Option<Proposed>, AllocError>
    ensures { IfFound result IsProposal }
{
    let (prices, fixed) = (work.rounds.prices(), &work.fixed);
    let found = if work.is_refuted {
        dropped_leaf(alloc, instance, pricing, prices, fixed, first)?
    } else {
        priced_leaf(alloc, instance, pricing, prices, fixed, first)?
    };
    match found {
        Some(priced) => Ok(Some(proposed(instance, priced, work.is_refuted))),
        None => Ok(None),
    }
}

// The setup on which a node is to be branched.
fn branch_at(
    alloc: Global,
    trials: Trials<'_>,
    fixed: &mut Fixed,
    gains: &mut Gains,
) -> Result<Option<Choice>, AllocError> {
    if trials.instance.items() * trials.instance.periods() > TRIED_SIZE {
        return Ok(None);
    }
    choice_for(alloc, trials, fixed, gains)
}

// The number of the next bound on a node's path, counted from 1.
fn next_bound(node: &Node) -> u32 {
    let count = u32::try_from(node.path.len()).unwrap_or(u32::MAX);
    count.saturating_add(1)
}

// Remembers what rounds came to and the setup on which a node is to be branched, and gives the place of the note, if there is room for
// one.
fn note_of(
    notes: &mut Notes,
    rounds: Rounds,
    choice: Option<Choice>,
) -> Result<Option<usize>, AllocError> {
    let Improved { prices, average } = rounds.into_improved();
    notes.put(Note {
        prices,
        average,
        choice,
    })
}

impl Proposer for Prices {
    type State = Pricings;

    type Work = Round;

    type Hint = Average;

    fn begin(&self, alloc: Global, instance: &Instance) -> Result<Pricings, AllocError> {
        let explosion = Explosion::of(alloc, instance)?;
        let mut pricing = Pricing::new(alloc, instance, &explosion)?;
        let prices = split_prices(alloc, instance, &pricing)?;
        tune_openings(alloc, instance, &mut pricing, &prices, self.until)?;
        let first = choose_grouping(alloc, instance, &mut pricing, self.until)?;
        Ok(Pricings {
            pricing,
            notes: Notes::new(alloc, instance),
            gains: Gains::new(alloc, instance)?,
            first,
        })
    }

    fn open(
        &self,
        alloc: Global,
        instance: &Instance,
        node: &Node,
        above: Option<usize>,
        state: &mut Pricings,
    ) -> Result<Round, AllocError> {
        let fixed = fixed_setups(alloc, instance, &node.path)?;
        let above = state.notes.hand_down(alloc, above, &node.path)?;
        let priced = NodePricing {
            instance,
            pricing: &state.pricing,
            fixed: &fixed,
        };
        let rounds = first_rounds(alloc, priced, above, state.first.as_ref())?;
        Ok(Round {
            rounds,
            fixed,
            is_refuted: false,
        })
    }

    fn times(&self, node: &Node) -> u32 {
        times_at(node)
    }

    fn improve(
        &self,
        alloc: Global,
        at: OpenNode<'_>,
        state: &Pricings,
        work: &mut Round,
    ) -> Result<Progress, AllocError> {
        let OpenNode {
            instance,
            node,
            cost,
        } = at;
        let until = self.until;
        if until.is_past() {
            return Ok(Progress::Done);
        }
        let lengths = Lengths {
            count: count_at(instance, &state.pricing, node),
            times: if node.path.is_empty() { 1 } else { NODE_TIMES },
            until,
        };
        let priced = NodePricing {
            instance,
            pricing: &state.pricing,
            fixed: &work.fixed,
        };
        match go_further(alloc, priced, &mut work.rounds, cost, lengths)? {
            Reached::Open => Ok(Progress::Open),
            Reached::Closed => Ok(Progress::Done),
            Reached::Refuted => {
                work.is_refuted = true;
                Ok(Progress::Done)
            }
        }
    }

    fn hint<'a>(&self, work: &'a Round) -> &'a Average {
        work.rounds.average()
    }

    fn leaf(
        &self,
        alloc: Global,
        instance: &Instance,
        state: &Pricings,
        work: &Round,
        wanted: LeafWanted,
    ) -> Result<Option<Proposed>, AllocError> {
        let LeafWanted { says, first_cut } = wanted;
        let refuted = work.is_refuted;
        let rounds = &work.rounds;
        if !refuted && !is_promising(rounds, says) {
            return Ok(None);
        }
        let pricing = &state.pricing;
        if let Some(grouping) = pricing.grouping() {
            let node = NodePricing {
                instance,
                pricing,
                fixed: &work.fixed,
            };
            return grouped_at(alloc, node, grouping, rounds, refuted, first_cut);
        }
        priced_at(alloc, instance, pricing, work, first_cut)
    }

    fn close(
        &self,
        alloc: Global,
        at: OpenNode<'_>,
        work: Round,
        state: &mut Pricings,
    ) -> Result<Option<usize>, AllocError> {
        let OpenNode {
            instance,
            node,
            cost,
        } = at;
        let Round { rounds, fixed, .. } = work;
        let mut held = fixed;
        let pricing = &state.pricing;
        let choice = if self.until.is_past() {
            None
        } else {
            let trials = Trials {
                instance,
                pricing,
                rounds: &rounds,
                cost,
                count: within_work(instance, pricing, TRIED_STEPS, TRIED_ROUNDS),
                number: next_bound(node),
            };
            branch_at(alloc, trials, &mut held, &mut state.gains)?
        };
        note_of(&mut state.notes, rounds, choice)
    }

    fn branch(
        &self,
        instance: &Instance,
        ranges: &[Range],
        note: Option<usize>,
        state: &Pricings,
    ) -> Option<usize> {
        Some(split_of(instance, ranges, state.notes.get(note)).place)
    }
}
