use crate::{ChainPlans, Level, NONE};
use std::alloc::{AllocError, Global};
use std::test::Fail;

// A level by prices of setups and units, with lot 0 first, and by needs of positions.
fn level(
    alloc: Global,
    fee: &[i64],
    unit: &[i64],
    need: &[i64],
    per_next: i64,
) -> Result<Level, AllocError> {
    let mut asked = vec![in alloc; 0i64, 0]?;
    let mut sum = 0i64;
    for units in need {
        sum = sum.saturating_add(*units);
        asked.push(sum)?;
    }
    Ok(Level {
        fee: fee.to_vec(alloc)?,
        unit: unit.to_vec(alloc)?,
        asked,
        per_next,
    })
}

fn plan(alloc: Global, plans: &mut ChainPlans, levels: &[Level]) -> Result<i64, AllocError> {
    match levels {
        [only] => plans.plan_one(alloc, only),
        [low, top] => plans.plan_two(alloc, low, top),
        [low, mid, top] => plans.plan_three(alloc, low, mid, top),
        _ => Ok(NONE),
    }
}

fn at(list: &[i64], place: usize) -> i64 {
    match list.get(place) {
        Some(number) => *number,
        None => 0,
    }
}

#[test]
fn chains_by_hand(rt: HostRuntime) -> Result<(), Fail> {
    let alloc = rt.alloc();
    let mut plans = ChainPlans::new(alloc);
    // All in the first lot costs 5 + 27, in the first and the third 10 + 15 + 4, in the first and the second 10 + 6 + 14.
    let item = level(alloc, &[0, 5, 5, 5], &[NONE, 3, 2, 1], &[2, 3, 4], 1)?;
    assert_eq!(rt; plans.plan_one(alloc, &item)?, 29);
    assert_eq!(rt; plans.made(0), [0, 5, 0, 4].as_slice());
    assert_eq!(rt; plans.setups(0), [0, 1, 0, 1].as_slice());
    assert!(rt; plans.made(1).is_empty() && plans.setups(2).is_empty());
    // Two parts in each: one lot of both costs 10 + 3 + 3 * 3, a second lot of the product 10 + 6 + 3 + 4.
    let part = level(alloc, &[0, 10, 10], &[NONE, 1, 0], &[0, 0], 2)?;
    let product = level(alloc, &[0, 3, 3], &[NONE, 1, 0], &[1, 2], 1)?;
    assert_eq!(rt; plans.plan_two(alloc, &part, &product)?, 22);
    assert_eq!(rt; plans.made(0), [0, 6, 0].as_slice());
    assert_eq!(rt; plans.made(1), [0, 3, 0].as_slice());
    assert_eq!(rt; plans.setups(1), [0, 1, 0].as_slice());
    assert!(rt; plans.made(2).is_empty() && plans.made(3).is_empty());
    // Parts that are there cost 1 each: 12 of them are dearer than a setup at 5.
    let raw = level(alloc, &[0, 5], &[1, 0], &[1], 2)?;
    let middle = level(alloc, &[0, 7], &[NONE, 2], &[0], 3)?;
    let end = level(alloc, &[0, 9], &[NONE, 4], &[2], 1)?;
    assert_eq!(rt; plans.plan_three(alloc, &raw, &middle, &end)?, 41);
    assert_eq!(rt; plans.made(0), [0, 13].as_slice());
    assert_eq!(rt; plans.made(1), [0, 6].as_slice());
    assert_eq!(rt; plans.made(2), [0, 2].as_slice());
    assert_eq!(rt; plans.setups(0), [0, 1].as_slice());
    Ok(())
}

#[test]
fn chains_without_a_plan(rt: HostRuntime) -> Result<(), Fail> {
    let alloc = rt.alloc();
    let mut plans = ChainPlans::new(alloc);
    let short = level(alloc, &[0, 5], &[1, 0], &[1], 2)?;
    let long = level(alloc, &[0, 5, 5], &[1, 0, 0], &[1, 1], 2)?;
    let uneven = level(alloc, &[0, 5, 5], &[1, 0], &[1, 1], 2)?;
    let empty = level(alloc, &[], &[], &[], 1)?;
    let closed = level(alloc, &[0, NONE, 1], &[NONE, 0, NONE], &[1, 1], 1)?;
    assert_eq!(rt; plans.plan_one(alloc, &short)?, 1);
    for item in [&uneven, &empty, &closed] {
        assert_eq!(rt; plans.plan_one(alloc, item)?, NONE);
        assert_eq!(rt; plans.plan_late(alloc, item, &[1, 1], 2)?, NONE);
        assert!(rt; plans.short().is_empty());
        assert!(rt; plans.made(0).is_empty());
    }
    assert_eq!(rt; plans.plan_two(alloc, &short, &long)?, NONE);
    assert_eq!(rt; plans.plan_two(alloc, &long, &closed)?, NONE);
    assert_eq!(rt; plans.plan_three(alloc, &long, &long, &uneven)?, NONE);
    assert_eq!(rt; plans.plan_three(alloc, &empty, &empty, &empty)?, NONE);
    assert_eq!(rt; plans.plan_three(alloc, &closed, &long, &long)?, NONE);
    Ok(())
}

#[test]
fn numbers_at_their_limits(rt: HostRuntime) -> Result<(), Fail> {
    let alloc = rt.alloc();
    let mut plans = ChainPlans::new(alloc);
    let most = i64::MAX;
    let least = i64::MIN;
    let large = level(
        alloc,
        &[0, most, 0],
        &[most, most, most],
        &[most, most],
        most,
    )?;
    let small = level(
        alloc,
        &[0, least, 0],
        &[least, least, 0],
        &[least, 1],
        least,
    )?;
    let dear = level(
        alloc,
        &[0, 1, 1],
        &[NONE, NONE - 1, NONE - 3],
        &[0, 1],
        NONE,
    )?;
    assert_eq!(rt; plans.plan_one(alloc, &large)?, NONE);
    assert_eq!(rt; plans.plan_one(alloc, &small)?, 0);
    assert_eq!(rt; plans.plan_one(alloc, &dear)?, NONE - 2);
    for item in [&large, &small, &dear] {
        plans.plan_late(alloc, item, &[most, most], 2)?;
        plans.plan_late(alloc, item, &[NONE - 1], usize::MAX)?;
        plans.plan_late(alloc, item, &[least, least], 0)?;
        plans.plan_two(alloc, item, &large)?;
        plans.plan_two(alloc, item, &dear)?;
        plans.plan_three(alloc, &dear, item, &large)?;
        plans.plan_three(alloc, item, &large, &dear)?;
        plans.plan_three(alloc, item, &small, &dear)?;
    }
    Ok(())
}

// Numbers that look random.
#[derive(Debug, Drop)]
struct Draws {
    state: u64,
}

impl Draws {
    // A number below another one, which is above 0.
    fn below(&mut self, count: i64) -> i64 {
        let next = self
            .state
            .wrapping_mul(6364136223846793005)
            .wrapping_add(1442695040888963407);
        self.state = next;
        let drawn = i64::try_from(next.wrapping_shr(33)).unwrap_or(0);
        drawn.wrapping_rem(count.max(1))
    }

    // A level over so many positions: some needs are 0, some lots are closed.
    fn level(
        &mut self,
        alloc: Global,
        positions: usize,
        is_last: bool,
    ) -> Result<Level, AllocError> {
        let mut fee = vec![in alloc; 0i64]?;
        let mut unit = vec![in alloc; 0i64]?;
        let mut need = Vec::new(alloc);
        unit.clear();
        unit.push(if self.below(3) == 0 {
            NONE
        } else {
            self.below(30)
        })?;
        for _ in 0..positions {
            let is_closed = self.below(6) == 0;
            fee.push(if is_closed { NONE } else { self.below(40) })?;
            unit.push(self.below(9))?;
            let most = if is_last { 7 } else { 2 };
            let asks = self.below(3) > 0;
            need.push(if asks { self.below(most) } else { 0 })?;
        }
        let per_next = self.below(3).saturating_add(1);
        level(alloc, &fee, &unit, &need, per_next)
    }
}

// Whether a choice sets up a lot of a level.
fn is_set_up(choice: u32, positions: u32, number: u32, lot: u32) -> bool {
    let place = number
        .wrapping_mul(positions)
        .wrapping_add(lot)
        .wrapping_sub(1);
    choice.wrapping_shr(place) % 2 == 1
}

// What a choice of setups costs where each unit is made as cheaply as it allows.
fn choice_cost(
    alloc: Global,
    levels: &[Level],
    positions: u32,
    choice: u32,
) -> Result<i64, AllocError> {
    let mut cost = 0i64;
    let mut number = 0u32;
    let mut into = 0i64;
    let mut below = Vec::new(alloc);
    for level in levels {
        let mut prices = Vec::new(alloc);
        let mut least = at(&level.unit, 0);
        let mut lot = 0u32;
        for (fee, unit) in level.fee.iter().zip(level.unit.iter()) {
            if lot > 0 && is_set_up(choice, positions, number, lot) {
                let parts = into.saturating_mul(at(&below, lot as usize));
                least = least.min(unit.saturating_add(parts));
                cost = cost.saturating_add(*fee);
            }
            let place = lot as usize;
            let units = at(&level.asked, place.wrapping_add(1)).wrapping_sub(at(
                &level.asked,
                place,
            ));
            cost = cost.saturating_add(least.saturating_mul(units));
            prices.push(least)?;
            lot = lot.wrapping_add(1);
        }
        below = prices;
        into = level.per_next;
        number = number.wrapping_add(1);
    }
    Ok(cost.min(NONE))
}

// What a level's plan costs; None where it makes units without a setup, or too few in time for what is asked of it, and
// of it by the next level's plan.
fn plan_cost(level: &Level, made: &[i64], setups: &[i64], next: &[i64]) -> Option<i64> {
    let (mut cost, mut sum, mut taken) = (0i64, 0i64, 0i64);
    let mut lot = 0usize;
    let mut serves = true;
    for (units, setup) in made.iter().zip(setups) {
        sum = sum.saturating_add(*units);
        cost = cost.saturating_add(at(&level.unit, lot).saturating_mul(*units));
        if *setup == 1 {
            cost = cost.saturating_add(at(&level.fee, lot));
        }
        if lot > 0 {
            taken = taken.saturating_add(at(next, lot));
            serves = serves && (*units == 0 || *setup == 1);
        }
        lot = lot.wrapping_add(1);
        let asked = at(&level.asked, lot).saturating_add(level.per_next.saturating_mul(taken));
        serves = serves && sum >= asked;
    }
    if serves && lot == level.fee.len() {
        Some(cost)
    } else {
        None
    }
}

// What the plans of all levels cost; None where they don't serve.
fn plans_cost(plans: &ChainPlans, levels: &[Level]) -> Option<i64> {
    let mut cost = 0i64;
    let mut number = 0usize;
    for level in levels {
        let next = number.wrapping_add(1);
        let after = if next < levels.len() { next } else { 3 };
        let made = plans.made(number);
        cost = cost.saturating_add(plan_cost(
            level,
            made,
            plans.setups(number),
            plans.made(after),
        )?);
        number = next;
    }
    Some(cost)
}

// The least cost of all choices of setups.
fn least_of_choices(alloc: Global, levels: &[Level], positions: u32) -> Result<i64, AllocError> {
    let bits = positions.wrapping_mul(u32::try_from(levels.len()).unwrap_or(0));
    let mut least = NONE;
    for choice in 0..1u32.wrapping_shl(bits) {
        least = least.min(choice_cost(alloc, levels, positions, choice)?);
    }
    Ok(least)
}

#[test]
fn small_chains_cost_the_least_of_all_choices(rt: HostRuntime) -> Result<(), Fail> {
    let alloc = rt.alloc();
    let mut plans = ChainPlans::new(alloc);
    let mut draws = Draws { state: 1 };
    for (count, positions, chains) in [
        (1, 4, 200),
        (2, 4, 200),
        (3, 2, 300),
        (3, 3, 200),
        (3, 4, 30),
    ] {
        for chain in 0..chains {
            let mut levels = Vec::new(alloc);
            for number in 1..count + 1 {
                levels.push(draws.level(alloc, positions, number == count)?)?;
            }
            let cost = plan(alloc, &mut plans, &levels)?;
            let least = least_of_choices(alloc, &levels, u32::try_from(positions).unwrap_or(0))?;
            assert_eq!(rt; cost, least, "{count} {positions} {chain}");
            let wanted = if least < NONE { Some(least) } else { None };
            assert_eq!(rt;
                plans_cost(&plans, &levels),
                wanted,
                "{count} {positions} {chain}"
            );
        }
    }
    Ok(())
}

#[test]
fn late_items_by_hand(rt: HostRuntime) -> Result<(), Fail> {
    let alloc = rt.alloc();
    let mut plans = ChainPlans::new(alloc);
    // The first lot is dear, and the 2 units of the first position fall short for one position: all in the second lot.
    let dear = level(alloc, &[0, 20, 4, 4], &[NONE, 1, 1, 1], &[2, 0, 3], 1)?;
    assert_eq!(rt; plans.plan_late(alloc, &dear, &[1, 1, 1], 2)?, 11);
    assert_eq!(rt; plans.made(0), [0, 0, 5, 0].as_slice());
    assert_eq!(rt; plans.setups(0), [0, 0, 1, 0].as_slice());
    assert_eq!(rt; plans.short(), [0, 2, 0, 0].as_slice());
    // They may not.
    assert_eq!(rt; plans.plan_late(alloc, &dear, &[1], 1)?, 25);
    assert_eq!(rt; plans.made(0), [0, 5, 0, 0].as_slice());
    assert_eq!(rt; plans.short(), [0, 0, 0, 0].as_slice());
    // They fall short for two positions at a low share: one setup at 4, and 5 units at 1, and 2 units for two positions.
    assert_eq!(rt;
        plans.plan_late(
            alloc,
            &level(alloc, &[0, 20, 9, 4], &[0, 1, 1, 1], &[2, 0, 3], 1)?,
            &[1, 1, 0],
            3
        )?,
        13
    );
    assert_eq!(rt; plans.short(), [0, 2, 2, 0].as_slice());
    // Nothing is asked for.
    let none = level(alloc, &[0, 5, NONE], &[0, 1, 1], &[0, 0], 1)?;
    assert_eq!(rt; plans.plan_late(alloc, &none, &[], 2)?, 0);
    assert_eq!(rt; plans.made(0), [0, 0, 0].as_slice());
    assert_eq!(rt; plans.plan_one(alloc, &none)?, 0);
    assert!(rt; plans.short().is_empty());
    Ok(())
}

// What a unit costs that falls short from a position until a lot makes it.
fn late_cost(shares: &[i64], period: u32, lot: u32) -> i64 {
    let mut cost = 0i64;
    for position in period..lot.max(period) {
        cost = cost.saturating_add(at(shares, position.saturating_sub(1) as usize));
    }
    cost
}

// What a choice of setups of a late item costs where each unit is made as cheaply as it allows.
fn late_choice_cost(
    level: &Level,
    shares: &[i64],
    settled: u32,
    positions: u32,
    choice: u32,
) -> i64 {
    let mut cost = 0i64;
    for lot in 1..positions.saturating_add(1) {
        if is_set_up(choice, positions, 0, lot) {
            cost = cost.saturating_add(at(&level.fee, lot as usize));
        }
    }
    for period in 1..positions.saturating_add(1) {
        let mut least = NONE;
        for lot in 1..period.max(settled).min(positions).saturating_add(1) {
            if is_set_up(choice, positions, 0, lot) {
                let late = late_cost(shares, period, lot);
                least = least.min(at(&level.unit, lot as usize).saturating_add(late));
            }
        }
        let place = period as usize;
        let before = at(&level.asked, place);
        let units = at(&level.asked, place.wrapping_add(1)).wrapping_sub(before);
        cost = cost.saturating_add(least.saturating_mul(units));
    }
    cost.min(NONE)
}

// What the plan of a late item costs; None where it makes units without a setup, or less than is on time and doesn't fall short.
fn late_plan_cost(
    plans: &ChainPlans,
    level: &Level,
    shares: &[i64],
    settled: usize,
) -> Option<i64> {
    let (mut cost, mut sum) = (0i64, 0i64);
    let mut lot = 0usize;
    let mut serves = plans.setups(0).len() == level.fee.len();
    for (units, short) in plans.made(0).iter().zip(plans.short()) {
        sum = sum.saturating_add(*units);
        cost = cost.saturating_add(at(&level.unit, lot).saturating_mul(*units));
        let share = at(shares, lot.wrapping_sub(1));
        cost = cost.saturating_add(share.saturating_mul(*short));
        let setup = at(plans.setups(0), lot);
        cost = cost.saturating_add(at(&level.fee, lot).saturating_mul(setup));
        serves = serves && (*units == 0 || setup == 1) && (lot < settled || *short == 0);
        lot = lot.wrapping_add(1);
        serves = serves && sum.saturating_add(*short) >= at(&level.asked, lot);
    }
    if serves && lot == level.fee.len() {
        Some(cost)
    } else {
        None
    }
}

#[test]
fn small_late_items_cost_the_least_of_all_choices(rt: HostRuntime) -> Result<(), Fail> {
    let alloc = rt.alloc();
    let mut plans = ChainPlans::new(alloc);
    let mut draws = Draws { state: 5 };
    for (positions, items) in [(1u32, 30), (2, 60), (4, 200), (6, 150)] {
        for item in 0..items {
            let mut level = draws.level(alloc, positions as usize, true)?;
            if let Some(price) = level.unit.first_mut() {
                *price = NONE;
            }
            let mut shares = Vec::new(alloc);
            for _position in 0..positions {
                shares.push(draws.below(6))?;
            }
            let drawn = draws.below(i64::from(positions).saturating_add(2));
            let settled = u32::try_from(drawn).unwrap_or(0);
            let cost = plans.plan_late(alloc, &level, &shares, settled as usize)?;
            let mut least = NONE;
            for choice in 0..1u32.wrapping_shl(positions) {
                least = least.min(late_choice_cost(&level, &shares, settled, positions, choice));
            }
            assert_eq!(rt; cost, least, "{positions} {item}");
            if least < NONE {
                let found = late_plan_cost(&plans, &level, &shares, settled as usize);
                assert_eq!(rt; found, Some(least), "{positions} {item}");
            } else {
                assert!(rt; plans.made(0).is_empty() && plans.short().is_empty());
            }
        }
    }
    Ok(())
}
