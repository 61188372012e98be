use crate::{LateLot, OnTime, arrival_period, charges, have_cells, is_rising, least_late_price};
use lot_model::{Draft, DraftItem, DraftNeed, Instance};
use std::alloc::{AllocError, Global};
use std::test::Fail;

// An item over five periods without costs, asked for so much, with this lead time.
fn item(alloc: Global, name: &str, demand: &[i64], lead: i64) -> Result<DraftItem, AllocError> {
    Ok(DraftItem {
        name: String::from_str(alloc, name)?,
        demand: demand.to_vec(alloc)?,
        unit_cost: vec![in alloc; 0i64; 5]?,
        setup_cost: vec![in alloc; 0i64; 5]?,
        hold_cost: vec![in alloc; 0i64; 5]?,
        backlog_cost: None,
        opening: 0,
        end_min: 0,
        end_max: None,
        lead,
        min_lot: 0,
        max_lot: None,
        needs: Vec::new(alloc),
        uses: Vec::new(alloc),
    })
}

// A takes 2 of B and may be late; it has a lead time of 1, an opening stock of 1 and an end stock of at least 2. B has
// a lead time of 2, a demand of its own and an opening stock of 3, and may not be late.
fn instance(alloc: Global) -> Result<Instance, Fail> {
    let mut a = item(alloc, "A", &[0, 0, 4, 0, 6], 1)?;
    a.opening = 1;
    a.end_min = 2;
    a.end_max = Some(5);
    a.backlog_cost = Some(vec![in alloc; 1i64; 5]?);
    a.needs.push(DraftNeed {
        item: String::from_str(alloc, "B")?,
        quantity: 2,
    })?;
    let mut b = item(alloc, "B", &[0, 1, 0, 0, 0], 2)?;
    b.opening = 3;
    let draft = Draft {
        periods: 5,
        resources: Vec::new(alloc),
        items: vec![in alloc; b, a]?,
    };
    Ok(Instance::from_draft(alloc, draft).ok().ok_or("refused")?)
}

// What is on time of an item by the end of each period, and before the first.
fn started(alloc: Global, instance: &Instance, item: u32) -> Result<Vec<u64>, AllocError> {
    let table = OnTime::of(alloc, instance)?;
    let mut list = Vec::new(alloc);
    if 1 <= item && item <= instance.items() {
        for period in 0..instance.periods() + 1 {
            list.push(table.by_end(item, period))?;
        }
    }
    Ok(list)
}

#[test]
fn all_is_started_in_time_for_what_must_arrive(rt: HostRuntime) -> Result<(), Fail> {
    let instance = instance(rt.alloc())?;
    for (item, wanted) in [(1, [0u64, 4, 20, 20, 20, 20]), (2, [0, 0, 3, 3, 11, 11])] {
        let found = started(rt.alloc(), &instance, item)?;
        assert_eq!(rt; found.as_slice(), wanted.as_slice(), "item {item}");
    }
    Ok(())
}

// The period in which lots of an item arrive that are started in this one, where the instance has both.
fn arrival(instance: &Instance, item: u32, period: u32) -> Option<u32> {
    let in_items = 1 <= item && item <= instance.items();
    let in_periods = 1 <= period && period <= instance.periods();
    if in_items && in_periods {
        return Some(arrival_period(instance, item, period));
    }
    None
}

#[test]
fn lots_arrive_the_lead_time_later_and_at_the_latest_in_the_end(
    rt: HostRuntime,
) -> Result<(), Fail> {
    let instance = instance(rt.alloc())?;
    for (item, period, wanted) in [(1, 1, 3u32), (1, 3, 5), (1, 5, 5), (2, 1, 2), (2, 5, 5)] {
        assert_eq!(rt;
            arrival(&instance, item, period),
            Some(wanted),
            "{item} {period}"
        );
    }
    Ok(())
}

// What shares of B and of A charge on the backlogs of B and of A.
fn charged(
    alloc: Global,
    instance: &Instance,
    of_b: &[u128],
    of_a: &[u128],
) -> Result<Vec<Vec<u128>>, Fail> {
    let shares = vec![in alloc; of_b.to_vec(alloc)?, of_a.to_vec(alloc)?]?;
    let on_time = OnTime::of(alloc, instance)?;
    if !have_cells(instance, &shares) {
        return Err("other items or periods".into());
    }
    Ok(charges(alloc, instance, &on_time, &shares)?)
}

#[test]
fn shares_are_charged_on_the_backlogs_of_end_products(rt: HostRuntime) -> Result<(), Fail> {
    let instance = instance(rt.alloc())?;
    for (of_b, of_a, wanted) in [
        // A is owed in the period in which its lots arrive; nothing would have to be started by the end of period 1
        (
            [0u128, 0, 0, 0, 0],
            [9u128, 7, 0, 0, 0],
            [0u128, 0, 7, 0, 0],
        ),
        // B serves the lots of A that are started in period 3 and arrive in period 4, two for each
        ([5, 0, 0, 0, 0], [0, 0, 0, 0, 0], [0, 0, 0, 10, 0]),
        ([5, 0, 0, 0, 0], [9, 7, 1, 0, 0], [0, 0, 7, 11, 0]),
        // what arrives in the last period may not fall short
        ([0, 3, 3, 3, 3], [0, 0, 0, 3, 3], [0, 0, 0, 0, 0]),
        // a charge above the greatest number
        (
            [u128::MAX, 0, 0, 0, 0],
            [0, 1, 1, 0, 0],
            [0, 0, 1, u128::MAX, 0],
        ),
    ] {
        let found = charged(rt.alloc(), &instance, &of_b, &of_a)?;
        let rows = vec![in rt.alloc(); [0u128; 5].to_vec(rt.alloc())?, wanted.to_vec(rt.alloc())?]?;
        assert_eq!(rt; found, rows, "{of_b:?} {of_a:?}");
    }
    Ok(())
}

#[test]
fn a_row_for_each_item_has_an_entry_for_each_period(rt: HostRuntime) -> Result<(), Fail> {
    let instance = instance(rt.alloc())?;
    for (rows, entries, wanted) in [(2, 5, true), (1, 5, false), (3, 5, false), (2, 4, false)] {
        let mut list = Vec::new(rt.alloc());
        for _ in 0..rows {
            list.push(vec![in rt.alloc(); 1u128; entries]?)?;
        }
        assert_eq!(rt; have_cells(&instance, &list), wanted, "{rows} {entries}");
    }
    Ok(())
}

// The lots of three periods.
fn lots(prices: [(u128, u128, u128, u64); 3]) -> [LateLot; 3] {
    prices.map(|(setup, unit, share, need)| LateLot {
        setup,
        unit,
        share,
        need,
    })
}

// Their least price, where what is on time doesn't fall.
fn least(alloc: Global, lots: &[LateLot], settled: u32) -> Result<u128, Fail> {
    if lots.len() > 3 || settled as usize > lots.len() || !is_rising(lots) {
        return Err("no late lots".into());
    }
    Ok(least_late_price(alloc, lots, settled)?)
}

#[test]
fn least_prices_of_late_items(rt: HostRuntime) -> Result<(), Fail> {
    for (prices, settled, wanted) in [
        // 2 on time by period 1 and 5 by period 3: all in period 1
        (
            [(4u128, 1u128, 1u128, 2u64), (4, 1, 1, 2), (4, 1, 1, 5)],
            0u32,
            9u128,
        ),
        // period 1 is dear, and its 2 units may fall short for one period: all in period 2
        ([(20, 1, 1, 2), (4, 1, 1, 2), (4, 1, 1, 5)], 2, 11),
        // they may not
        ([(20, 1, 1, 2), (4, 1, 1, 2), (4, 1, 1, 5)], 1, 25),
        // a shortfall of two periods is cheaper than a second setup
        ([(20, 1, 1, 2), (9, 1, 1, 2), (4, 1, 1, 5)], 3, 13),
        // nothing is on time
        ([(20, 1, 1, 0), (9, 1, 1, 0), (4, 1, 1, 0)], 3, 0),
        // a price above the greatest number
        (
            [
                (u128::MAX, 1, 1, 1),
                (u128::MAX, 1, 1, 1),
                (u128::MAX, 1, 1, 1),
            ],
            3,
            u128::MAX,
        ),
    ] {
        let lots = lots(prices);
        assert_eq!(rt; least(rt.alloc(), &lots, settled)?, wanted, "{prices:?}");
    }
    Ok(())
}

#[test]
fn what_is_on_time_may_not_fall(rt: HostRuntime) -> Result<(), Fail> {
    for (needs, wanted) in [([0u64, 2, 2], true), ([1, 0, 2], false), ([1, 2, 1], false)] {
        let list = lots(needs.map(|need| (0, 0, 0, need)));
        assert_eq!(rt; is_rising(&list), wanted, "{needs:?}");
    }
    Ok(())
}
