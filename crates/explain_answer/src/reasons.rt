// Reasons why a model has no plan, each of which one item or one resource shows by itself.

use crate::bounds::{Totals, most_in, totals_of, whole_demand, whole_use};
use crate::needs::{Needs, in_order, needs_of};
use explain_lookup::{
    capacity_of, end_max_of, item_name, lead_of, lot_time, max_lot_of, min_lot_of, opening_of,
    resource_name,
};
use lot_model::Instance;
use std::alloc::{AllocError, Global};

// More opening stock than is asked for, used and left.
fn on_opening(
    alloc: Global,
    instance: &Instance,
    totals: &Totals,
    item: u32,
) -> Result<Option<String>, AllocError> {
    if totals.most(item).is_some() {
        return Ok(None);
    }
    let (name, opening) = (item_name(instance, item), opening_of(instance, item));
    let (demand, used) = (
        whole_demand(instance, item),
        whole_use(instance, totals, item),
    );
    let most = end_max_of(instance, item);
    let words = format!(in alloc;
        "`{name}` has too much opening stock: of its {opening}, demand takes {demand} in all and other items at most {used}, and no more than {most} may be left at the end (`end_max`).\nRaise `end_max`.\n"
    )?;
    Ok(Some(words))
}

// A period of which the demand would have to be met before a lot can arrive.
fn on_lead(
    alloc: Global,
    instance: &Instance,
    needs: &Needs,
    item: u32,
) -> Result<Option<String>, AllocError> {
    let opening = opening_of(instance, item);
    let lead = lead_of(instance, item);
    for period in 1..instance.periods() + 1 {
        let wanted = needs.outgoing(item, period);
        if period <= lead && wanted > u128::from(opening) {
            let (name, first) = (item_name(instance, item), lead.saturating_add(1));
            let words = format!(in alloc;
                "The opening stock of `{name}` doesn't last until a lot can arrive: {wanted} are needed by period {period}, {opening} are there, and with `lead = {lead}` the first lot arrives in period {first}.\nRaise `opening`, for what was ordered earlier too, or shorten `lead`.\n"
            )?;
            return Ok(Some(words));
        }
    }
    Ok(None)
}

// A least lot for which there is no room.
fn on_least_lot(
    alloc: Global,
    instance: &Instance,
    needs: &Needs,
    totals: &Totals,
    item: u32,
) -> Result<Option<String>, AllocError> {
    let wanted = needs.started(item, instance.periods());
    let (least, most) = (min_lot_of(instance, item), totals.most(item).unwrap_or(0));
    if wanted == 0 || u128::from(least) <= most {
        return Ok(None);
    }
    let (name, end) = (item_name(instance, item), end_max_of(instance, item));
    let words = format!(in alloc;
        "`{name}` needs a lot, of at least {least} (`min_lot`), but no more than {most} are demanded, used or left: at most {end} may be in stock at the end (`end_max`).\nRaise `end_max`.\n"
    )?;
    Ok(Some(words))
}

// A period up to which more has to be made of an item than can be, were it alone.
fn on_item_alone(
    alloc: Global,
    instance: &Instance,
    needs: &Needs,
    item: u32,
) -> Result<Option<String>, AllocError> {
    let mut most = 0u128;
    for period in 1..instance.periods() + 1 {
        most = most.saturating_add(u128::from(most_in(instance, item, period)));
        let wanted = needs.started(item, period);
        if wanted > most {
            let (name, cause) = (item_name(instance, item), cause_alone(instance, item));
            let words = format!(in alloc;
                "Of `{name}`, {wanted} have to be made by the end of period {period}, and no more than {most} can be, were it made alone: {cause}.\n"
            )?;
            return Ok(Some(words));
        }
    }
    Ok(None)
}

// What bounds the lots of an item.
fn cause_alone(instance: &Instance, item: u32) -> &'static str {
    match (
        max_lot_of(instance, item) < u64::MAX,
        min_lot_of(instance, item) > 0,
    ) {
        (true, _) => "see its `max_lot`, and the times of a setup and of a unit in its `uses`",
        (false, true) => "see its `min_lot`, and the times of a setup and of a unit in its `uses`",
        (false, false) => "see the times of a setup and of a unit in its `uses`",
    }
}

// The least time that an item takes on a resource up to a period.
fn least_time(instance: &Instance, needs: &Needs, resource: u32, item: u32, period: u32) -> u128 {
    let wanted = needs.started(item, period);
    if wanted == 0 {
        return 0;
    }
    let units = wanted.max(u128::from(min_lot_of(instance, item)));
    lot_time(instance, resource, item, units, 1)
}

// The least time that all items take on a resource up to a period.
fn least_load(instance: &Instance, needs: &Needs, resource: u32, period: u32) -> u128 {
    let mut total = 0u128;
    for item in 1..instance.items() + 1 {
        total = total.saturating_add(least_time(instance, needs, resource, item, period));
    }
    total
}

// The time of a resource up to a period.
fn time_up_to(instance: &Instance, resource: u32, last: u32) -> u128 {
    let mut total = 0u128;
    for period in 1..instance.periods() + 1 {
        if period <= last {
            total = total.saturating_add(u128::from(capacity_of(instance, resource, period)));
        }
    }
    total
}

// The items that need a resource up to a period, with their times.
fn write_loads(
    text: &mut String,
    instance: &Instance,
    needs: &Needs,
    resource: u32,
    period: u32,
) -> Result<(), AllocError> {
    let mut mark = "";
    for item in 1..instance.items() + 1 {
        let time = least_time(instance, needs, resource, item, period);
        if time > 0 {
            let name = instance.item_name(item);
            write!(text, "{mark}{name} {time}")?;
            mark = ", ";
        }
    }
    Ok(())
}

// Whether some item takes time on a resource and on another one.
fn shares_an_item(instance: &Instance, resource: u32) -> bool {
    for item in 1..instance.items() + 1 {
        if instance.uses(item).len() > 1 && lot_time(instance, resource, item, 1, 1) > 0 {
            return true;
        }
    }
    false
}

// A resource that has too little time up to a period.
fn on_resource(
    alloc: Global,
    instance: &Instance,
    needs: &Needs,
    resource: u32,
    period: u32,
) -> Result<Option<String>, AllocError> {
    let wanted = least_load(instance, needs, resource, period);
    let time = time_up_to(instance, resource, period);
    if wanted <= time {
        return Ok(None);
    }
    let name = resource_name(instance, resource);
    let mut words = if period <= 1 {
        format!(in alloc;
            "`{name}` has too little time in period 1: {time}, and {wanted} are needed at least: "
        )?
    } else {
        format!(in alloc;
            "`{name}` has too little time in periods 1 to {period}: {time}, and {wanted} are needed at least: "
        )?
    };
    write_loads(&mut words, instance, needs, resource, period)?;
    words.push_str(".\nRaise `capacity`, or `opening`.\n")?;
    if shares_an_item(instance, resource) {
        words.push_str("An item that `uses` two resources takes time on both.\n")?;
    }
    Ok(Some(words))
}

// The first resource that has too little time up to a period.
fn on_resources(
    alloc: Global,
    instance: &Instance,
    needs: &Needs,
    period: u32,
) -> Result<Option<String>, AllocError> {
    for resource in 1..instance.resources() + 1 {
        let words = on_resource(alloc, instance, needs, resource, period)?;
        if words.is_some() {
            return Ok(words);
        }
    }
    Ok(None)
}

// The first reason by times of resources.
fn on_times(
    alloc: Global,
    instance: &Instance,
    needs: &Needs,
) -> Result<Option<String>, AllocError> {
    for period in 1..instance.periods() + 1 {
        let words = on_resources(alloc, instance, needs, period)?;
        if words.is_some() {
            return Ok(words);
        }
    }
    Ok(None)
}

// The first reason that an item shows by itself.
fn on_item(
    alloc: Global,
    instance: &Instance,
    needs: &Needs,
    totals: &Totals,
    item: u32,
) -> Result<Option<String>, AllocError> {
    let opening = on_opening(alloc, instance, totals, item)?;
    if opening.is_some() {
        return Ok(opening);
    }
    let lead = on_lead(alloc, instance, needs, item)?;
    if lead.is_some() {
        return Ok(lead);
    }
    let least = on_least_lot(alloc, instance, needs, totals, item)?;
    if least.is_some() {
        return Ok(least);
    }
    on_item_alone(alloc, instance, needs, item)
}

/// Words on a reason why a model has no plan. None where no item and no resource shows one by itself.
pub(crate) fn reason(alloc: Global, instance: &Instance) -> Result<Option<String>, AllocError> {
    let order = in_order(alloc, instance)?;
    let needs = needs_of(alloc, instance, &order)?;
    let totals = totals_of(alloc, instance, &order)?;
    for item in &order {
        let words = on_item(alloc, instance, &needs, &totals, *item)?;
        if words.is_some() {
            return Ok(words);
        }
    }
    on_times(alloc, instance, &needs)
}
