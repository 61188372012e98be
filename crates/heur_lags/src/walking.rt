// Walks from plan to plan, over some that break rules.
use crate::drawing::{
    Span, Trouble, below, count_marks, drawn_marks, drawn_span, drawn_tolls, least_rank,
};
use crate::remaking::{Manner, STRICT, WHOLE, remake};
use crate::shop::{Product, Shop};
use crate::standing::Stand;
use crate::taking::{is_marked, mark};
use crate::troubles::drawn_trouble;
use crate::worth::Worth;
use integer_grids::IntegerGrid;
use integer_grids::numbers::{less, over, plus, times};
use rand_pcg::Lcg64Xsh32;
use std::alloc::{AllocError, Global};

// So many moves are made at most for each item and period.
const MOVES: u32 = 60;

// A worse plan is taken if it costs at most one part more of so many, and less and less towards the end.
const SLACK_PARTS: i64 = 75;

// While no plan is found it goes on up to so many times as long.
const TIMES: u64 = 3;

// Thousandths of what may be done.
const THOUSAND: u64 = 1000;

// It ends after so many moves for each item and period that found nothing better than the best plan.
const QUIET: u32 = 15;

// After so many moves that found nothing better a walk goes back to its best plan, if it stands at one that breaks rules.
const PATIENCE: u32 = 500;

// The least and the largest strictness, a sixteenth of a whole and 64 of them. It grows by one part of so many while
// rules are broken, and falls to the least one from the largest; while none are, it falls by one part of so many.
const LEAST_STRICT: i64 = STRICT / 16;

const MOST_STRICT: i64 = STRICT * 64;

const STRICT_PARTS: i64 = 32;

// Where rules are broken one of so many moves begins with an item and a period in which one is.
const AIM_EACH: u32 = 2;

// The lots of components are made anew so many periods earlier for each rank.
const EARLIER: u32 = 3;

// The generator of random changes runs on this stream.
const STREAM: u64 = 54;

// So many levels of what has been made so far are looked at in one of so many moves, and else fewer.
const FINE: i64 = 1500;

const COARSE: i64 = 150;

const FINE_EACH: u32 = 4;

// These numbers are of a model with so many items times periods, and are greater for larger ones.
const CELLS: i64 = 120;

// So many parts, of a model with more items times periods more of them.
fn scaled(parts: i64, shop: &Shop) -> i64 {
    let cells = times(i64::from(shop.items), i64::from(shop.periods));
    times(parts, cells).wrapping_div(CELLS).max(parts)
}

// How many levels a move looks at.
fn drawn_levels(words: &mut Lcg64Xsh32) -> i64 {
    if below(words, FINE_EACH) == 0 {
        FINE
    } else {
        COARSE
    }
}

// Items that are made anew in one move.
#[derive(Drop)]
struct Round {
    // Those that still are, and those of them whose lots take no time until then.
    open: Vec<bool>,
    out: Vec<bool>,
    strict: i64,
    // Whether setups are taken to cost more or less than they do, and what time is taken to cost beside.
    noisy: bool,
    tolls: Vec<i64>,
    // The periods whose lots of items of this rank are made anew; those of their components begin earlier.
    span: Span,
    rank: u32,
    // How many levels of what has been made so far are looked at.
    levels: i64,
    work: u64,
}

impl Round {
    // Makes an item anew.
    fn remake_item(
        &mut self,
        alloc: Global,
        shop: &Shop,
        stand: &mut Stand,
        product: &Product,
        words: &mut Lcg64Xsh32,
    ) -> Result<(), AllocError> {
        mark(&mut self.open, product.number, false);
        if !is_marked(&self.out, product.number) {
            stand.take_out(product);
        }
        let setup = if self.noisy {
            plus(i64::from(below(words, 24)), 8)
        } else {
            WHOLE
        };
        let ranks = product.rank.saturating_sub(self.rank);
        let earlier = ranks.saturating_mul(EARLIER);
        let manner = Manner {
            open: &self.open,
            strict: self.strict,
            setup,
            credit: times(i64::from(below(words, 5)), 4),
            tolls: &self.tolls,
            first: self.span.first.saturating_sub(earlier).max(1),
            last: self.span.last,
            levels: self.levels,
        };
        let work = remake(alloc, shop, stand, product, &manner)?;
        stand.put_in(product);
        self.work = self.work.saturating_add(work);
        Ok(())
    }

    // Makes those of a rank anew, beginning with a random one.
    fn remake_rank(
        &mut self,
        alloc: Global,
        shop: &Shop,
        stand: &mut Stand,
        rank: u32,
        words: &mut Lcg64Xsh32,
    ) -> Result<(), AllocError> {
        let first = below(words, shop.items);
        for step in 0..shop.items {
            let place = first.wrapping_add(step) % shop.items;
            if let Some(product) = shop.products.get(place as usize) {
                if product.rank == rank && is_marked(&self.open, product.number) {
                    self.remake_item(alloc, shop, stand, product, words)?;
                }
            }
        }
        Ok(())
    }

    // Makes all of them anew, items before their components.
    fn remake_all(
        &mut self,
        alloc: Global,
        shop: &Shop,
        stand: &mut Stand,
        words: &mut Lcg64Xsh32,
    ) -> Result<(), AllocError> {
        stand.take_out_all(shop, &self.out);
        for rank in 0..shop.depth {
            self.remake_rank(alloc, shop, stand, rank, words)?;
        }
        Ok(())
    }
}

/// Lots, and what they cost.
#[derive(Drop)]
pub(crate) struct Best {
    pub(crate) make: IntegerGrid,
    pub(crate) cost: i64,
}

// Where a walk stands.
#[derive(Drop)]
struct Walk<'a> {
    shop: &'a Shop,
    stand: Stand,
    best: Option<Best>,
    words: Lcg64Xsh32,
    strict: i64,
    // What it took, and the moves since something better was found: since it went back to the best lots, and in all.
    work: u64,
    idle: u32,
    quiet: u32,
}

// What lots cost with so much of the penalties.
fn value_of(worth: Worth, strict: i64) -> i64 {
    let broken = times(worth.broken, strict).wrapping_div(STRICT);
    plus(worth.cost, broken)
}

impl<'a> Walk<'a> {
    // A walk from these lots.
    fn from(
        alloc: Global,
        shop: &'a Shop,
        make: IntegerGrid,
        seed: u64,
    ) -> Result<Walk<'a>, AllocError> {
        let stand = Stand::of(alloc, shop, make)?;
        let mut walk = Walk {
            shop,
            stand,
            best: None,
            words: Lcg64Xsh32::new(seed, STREAM),
            strict: STRICT,
            work: 0,
            idle: 0,
            quiet: 0,
        };
        walk.note(alloc)?;
        Ok(walk)
    }

    // Whether lots are better than all before.
    fn is_best(&self, worth: Worth) -> bool {
        let cheaper = match &self.best {
            Some(best) => worth.cost < best.cost,
            None => true,
        };
        worth.broken == 0 && cheaper
    }

    // Notes the lots where it stands, if they are the best.
    fn note(&mut self, alloc: Global) -> Result<(), AllocError> {
        let worth = self.stand.worth;
        self.idle = self.idle.saturating_add(1);
        self.quiet = self.quiet.saturating_add(1);
        if self.is_best(worth) {
            self.idle = 0;
            self.quiet = 0;
            self.best = Some(Best {
                make: self.stand.make.copy(alloc)?,
                cost: worth.cost,
            });
        }
        Ok(())
    }

    // Makes all items anew, in plain order and at their own costs.
    fn begin(&mut self, alloc: Global) -> Result<(), AllocError> {
        let many = self.shop.items as usize;
        let mut round = Round {
            open: vec![in alloc; true; many]?,
            out: vec![in alloc; true; many]?,
            strict: self.strict,
            noisy: false,
            tolls: Vec::new(alloc),
            span: Span {
                first: 1,
                last: self.shop.periods,
            },
            rank: 0,
            levels: COARSE,
            work: 0,
        };
        round.remake_all(alloc, self.shop, &mut self.stand, &mut self.words)?;
        self.work = self.work.saturating_add(round.work);
        self.stand.judge_all(self.shop);
        self.note(alloc)
    }

    // How much more lots may cost that are taken, where so many thousandths are left to do.
    fn slack(&mut self, left: u64) -> i64 {
        let cost = match &self.best {
            Some(best) => best.cost,
            None => value_of(self.stand.worth, self.strict),
        };
        let part = i64::from(below(&mut self.words, 1000));
        let most = times(over(cost, scaled(SLACK_PARTS, self.shop)), part).wrapping_div(1000);
        let share = i64::try_from(left).unwrap_or(0);
        times(most, share).wrapping_div(1000)
    }

    // Goes back to the best lots.
    fn go_back(&mut self, alloc: Global) -> Result<(), AllocError> {
        if let Some(best) = &self.best {
            self.stand = Stand::of(alloc, self.shop, best.make.copy(alloc)?)?;
            self.idle = 0;
        }
        Ok(())
    }

    // Takes penalties more strictly while rules are broken, and else less.
    fn adjust(&mut self) {
        let part = over(self.strict, scaled(STRICT_PARTS, self.shop)).max(1);
        self.strict = if self.stand.worth.broken == 0 {
            less(self.strict, part).max(LEAST_STRICT)
        } else if self.strict < MOST_STRICT {
            plus(plus(self.strict, part), 1)
        } else {
            LEAST_STRICT
        };
    }

    // What breaks a rule, for some of the moves.
    fn drawn_aim(&mut self) -> Option<Trouble> {
        if self.stand.worth.broken == 0 || below(&mut self.words, AIM_EACH) > 0 {
            return None;
        }
        drawn_trouble(self.shop, &self.stand, &mut self.words)
    }

    // Lots with some items made anew.
    fn neighbour(&mut self, alloc: Global) -> Result<Stand, AllocError> {
        let aim = self.drawn_aim();
        let marks = drawn_marks(alloc, self.shop, &mut self.words, aim)?;
        let many = count_marks(&marks) > 1;
        let out = if below(&mut self.words, 2) == 0 {
            marks.as_slice().to_vec(alloc)?
        } else {
            Vec::new(alloc)
        };
        let tolls = if below(&mut self.words, 2) == 0 {
            drawn_tolls(alloc, self.shop, &mut self.words)?
        } else {
            Vec::new(alloc)
        };
        let rank = least_rank(self.shop, &marks);
        let mut round = Round {
            open: marks.as_slice().to_vec(alloc)?,
            out,
            strict: self.strict,
            noisy: many && below(&mut self.words, 2) == 0,
            tolls,
            span: drawn_span(self.shop, &mut self.words, aim),
            rank,
            levels: drawn_levels(&mut self.words),
            work: 0,
        };
        let mut stand = self.stand.copy(alloc)?;
        round.remake_all(alloc, self.shop, &mut stand, &mut self.words)?;
        self.work = self.work.saturating_add(round.work);
        stand.judge(self.shop, &marks);
        Ok(stand)
    }

    // Makes some items anew, and takes the lots if they are better, or not much worse.
    fn go(&mut self, alloc: Global, left: u64) -> Result<(), AllocError> {
        let next = self.neighbour(alloc)?;
        let most = plus(value_of(self.stand.worth, self.strict), self.slack(left));
        if value_of(next.worth, self.strict) <= most || self.is_best(next.worth) {
            self.stand = next;
        }
        self.note(alloc)?;
        self.adjust();
        if self.idle > PATIENCE && self.stand.worth.broken > 0 {
            self.go_back(alloc)?;
        }
        Ok(())
    }

    // Whether nothing better than the best lots was found for long.
    fn is_quiet(&self, cells: u32) -> bool {
        self.best.is_some() && self.quiet > cells.saturating_mul(QUIET)
    }

    // Moves while there is room for work, and some times as often while no lots keep all rules.
    fn go_until_found(&mut self, alloc: Global, work: u64) -> Result<(), AllocError> {
        for time in 1..TIMES + 1 {
            self.go_on(alloc, work.saturating_mul(time))?;
            if self.best.is_some() {
                return Ok(());
            }
        }
        Ok(())
    }

    // Moves while there is room for work.
    fn go_on(&mut self, alloc: Global, work: u64) -> Result<(), AllocError> {
        let cells = self.shop.items.saturating_mul(self.shop.periods);
        let moves = u64::from(cells).saturating_mul(u64::from(MOVES));
        for step in 0..moves {
            let share = self.work.saturating_mul(THOUSAND) / work.max(1);
            let done = share.max(step.saturating_mul(THOUSAND) / moves.max(1));
            if done >= THOUSAND || self.is_quiet(cells) {
                return Ok(());
            }
            self.go(alloc, THOUSAND - done)?;
        }
        Ok(())
    }
}

/// The best lots that a walk from these finds, where all items are made anew first or not. It takes so much work, in levels
/// of items and periods, and goes on for some times as much while it has found none that keep all rules. None where it finds none that keep all rules. The error is that memory ran out.
pub(crate) fn walk_from(
    alloc: Global,
    shop: &Shop,
    make: IntegerGrid,
    anew: bool,
    seed: u64,
    work: u64,
) -> Result<Option<Best>, AllocError> {
    let mut walk = Walk::from(alloc, shop, make, seed)?;
    let loose = shop.is_loose();
    if loose {
        walk.strict = MOST_STRICT;
    }
    if anew {
        walk.begin(alloc)?;
    }
    if !loose {
        walk.go_until_found(alloc, work)?;
    }
    Ok(walk.best)
}
