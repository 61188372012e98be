use crate::{MustStart, largest_lot};
use lot_model::{Draft, DraftItem, DraftNeed, DraftResource, DraftUse, Instance};
use std::alloc::{AllocError, Global};
use std::test::Fail;

// An item over five periods without costs, asked for so much, with this lead time.
fn item(alloc: Global, name: &str, demand: &[i64], lead: i64) -> Result<DraftItem, AllocError> {
    Ok(DraftItem {
        name: String::from_str(alloc, name)?,
        demand: demand.to_vec(alloc)?,
        unit_cost: vec![in alloc; 0i64; 5]?,
        setup_cost: vec![in alloc; 0i64; 5]?,
        hold_cost: vec![in alloc; 0i64; 5]?,
        backlog_cost: None,
        opening: 0,
        end_min: 0,
        end_max: None,
        lead,
        min_lot: 0,
        max_lot: None,
        needs: Vec::new(alloc),
        uses: Vec::new(alloc),
    })
}

// A takes 2 of B; A has an opening stock of 1 and an end stock of at least 2 and at most 5, B an opening stock of 3; C
// may be late. A takes 3 for each unit and 2 for a setup of the resource m.
fn instance(alloc: Global) -> Result<Instance, Fail> {
    let mut a = item(alloc, "A", &[0, 0, 4, 0, 6], 1)?;
    a.opening = 1;
    a.end_min = 2;
    a.end_max = Some(5);
    a.max_lot = Some(20);
    a.needs.push(DraftNeed {
        item: String::from_str(alloc, "B")?,
        quantity: 2,
    })?;
    a.uses.push(DraftUse {
        resource: String::from_str(alloc, "m")?,
        unit: 3,
        setup: 2,
    })?;
    let mut b = item(alloc, "B", &[0, 1, 0, 0, 0], 2)?;
    b.opening = 3;
    let mut c = item(alloc, "C", &[5, 0, 0, 0, 2], 0)?;
    c.backlog_cost = Some(vec![in alloc; 1i64; 5]?);
    c.end_max = Some(0);
    c.max_lot = Some(6);
    let machine = DraftResource {
        name: String::from_str(alloc, "m")?,
        capacity: [10i64, 3, 2, 0, 100].to_vec(alloc)?,
    };
    let draft = Draft {
        periods: 5,
        resources: vec![in alloc; machine]?,
        items: vec![in alloc; b, a, c]?,
    };
    Ok(Instance::from_draft(alloc, draft).ok().ok_or("refused")?)
}

// What must have been started of an item by the end of each period, and before the first.
fn started(alloc: Global, instance: &Instance, item: u32) -> Result<Vec<u64>, AllocError> {
    let table = MustStart::of(alloc, instance)?;
    let mut list = Vec::new(alloc);
    if 1 <= item && item <= instance.items() {
        for period in 0..instance.periods() + 1 {
            list.push(table.by_end(item, period))?;
        }
    }
    Ok(list)
}

#[test]
fn lots_are_started_in_time_for_what_must_have_arrived(rt: HostRuntime) -> Result<(), Fail> {
    let instance = instance(rt.alloc())?;
    for (item, wanted) in [
        (1, [0u64, 4, 20, 20, 20, 20]),
        (2, [0, 0, 3, 3, 11, 11]),
        (3, [0, 0, 0, 0, 0, 7]),
    ] {
        let found = started(rt.alloc(), &instance, item)?;
        assert_eq!(rt; found.as_slice(), wanted.as_slice(), "item {item}");
    }
    Ok(())
}

// The largest lot of an item in a period, where the instance has both.
fn lot(instance: &Instance, item: u32, period: u32) -> Option<u64> {
    let in_items = 1 <= item && item <= instance.items();
    let in_periods = 1 <= period && period <= instance.periods();
    if in_items && in_periods {
        return Some(largest_lot(instance, item, period));
    }
    None
}

#[test]
fn lots_have_the_time_of_a_setup_and_their_units(rt: HostRuntime) -> Result<(), Fail> {
    let instance = instance(rt.alloc())?;
    for (item, period, wanted) in [
        (2, 1, 2u64),
        (2, 2, 0),
        (2, 3, 0),
        (2, 4, 0),
        // more time than the largest total takes
        (2, 5, 14),
        // no resource, but a bound on lots
        (3, 1, 6),
    ] {
        assert_eq!(rt;
            lot(&instance, item, period),
            Some(wanted),
            "{item} {period}"
        );
    }
    Ok(())
}
