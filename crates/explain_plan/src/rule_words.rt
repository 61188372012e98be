// Words on the rules that a plan breaks, in the order in which `judge` looks at them.

use crate::balance_words::look_at_balance;
use crate::cells::cell_of;
use crate::listing::Listing;
use explain_lookup::{
    capacity_of, end_max_of, end_min_of, item_name, lead_of, lot_time, max_lot_of, may_be_late,
    min_lot_of, resource_name,
};
use lot_model::Instance;
use plan_rules::Plan;
use std::alloc::{AllocError, Global};

// A rule on one item and period.
#[derive(Clone, Copy)]
enum CellRule {
    Setup,
    Balance,
    Made,
    Backlog,
    Lot,
    Horizon,
}

// A setup that is neither 0 nor 1.
fn look_at_setup(
    listing: &mut Listing,
    instance: &Instance,
    plan: &Plan,
    item: u32,
    period: u32,
) -> Result<(), AllocError> {
    let setup = cell_of(&plan.setup, item, period);
    if setup > 1 && listing.takes_one() {
        let name = item_name(instance, item);
        write!(
            listing.text,
            "  {name}, period {period}: `setup` is {setup}, and has to be 0 or 1.\n"
        )?;
    }
    Ok(())
}

// A quantity without a setup.
fn look_at_made(
    listing: &mut Listing,
    instance: &Instance,
    plan: &Plan,
    item: u32,
    period: u32,
) -> Result<(), AllocError> {
    let made = cell_of(&plan.make, item, period);
    if made > 0 && cell_of(&plan.setup, item, period) != 1 && listing.takes_one() {
        let name = item_name(instance, item);
        write!(
            listing.text,
            "  {name}, period {period}: {made} are made without a setup: write 1 in `setup`.\n"
        )?;
    }
    Ok(())
}

// A backlog that isn't allowed.
fn look_at_backlog(
    listing: &mut Listing,
    instance: &Instance,
    plan: &Plan,
    item: u32,
    period: u32,
) -> Result<(), AllocError> {
    let owed = cell_of(&plan.backlog, item, period);
    let is_last = period == instance.periods();
    let is_allowed = may_be_late(instance, item) && !is_last;
    if owed > 0 && !is_allowed && listing.takes_one() {
        let name = item_name(instance, item);
        let why = if is_last {
            "nothing may be owed at the end of the last period"
        } else {
            "it has no `backlog_cost`, so nothing of it may be late"
        };
        write!(
            listing.text,
            "  {name}, period {period}: {owed} are owed, but {why}.\n"
        )?;
    }
    Ok(())
}

// A lot below the least one, or above the largest.
fn look_at_lot(
    listing: &mut Listing,
    instance: &Instance,
    plan: &Plan,
    item: u32,
    period: u32,
) -> Result<(), AllocError> {
    let (made, setups) = (
        cell_of(&plan.make, item, period),
        cell_of(&plan.setup, item, period),
    );
    let (least, most) = (min_lot_of(instance, item), max_lot_of(instance, item));
    let is_small = u128::from(least).saturating_mul(u128::from(setups)) > u128::from(made);
    if !is_small && made <= most {
        return Ok(());
    }
    if !listing.takes_one() {
        return Ok(());
    }
    let name = item_name(instance, item);
    if is_small {
        write!(
            listing.text,
            "  {name}, period {period}: a setup makes {made}, and has to make at least {least} (`min_lot`).\n"
        )
    } else {
        write!(
            listing.text,
            "  {name}, period {period}: {made} are made, and at most {most} may be (`max_lot`).\n"
        )
    }
}

// A lot that would arrive after the last period.
fn look_at_horizon(
    listing: &mut Listing,
    instance: &Instance,
    plan: &Plan,
    item: u32,
    period: u32,
) -> Result<(), AllocError> {
    let (made, lead) = (cell_of(&plan.make, item, period), lead_of(instance, item));
    let (arrival, last) = (period.saturating_add(lead), instance.periods());
    if made > 0 && arrival > last && listing.takes_one() {
        let name = item_name(instance, item);
        write!(
            listing.text,
            "  {name}, period {period}: {made} are started, and would arrive in period {arrival}, after the last, {last} (`lead` is {lead}).\n"
        )?;
    }
    Ok(())
}

// A rule on one item and period.
fn look_at_cell(
    listing: &mut Listing,
    instance: &Instance,
    plan: &Plan,
    rule: CellRule,
    item: u32,
    period: u32,
) -> Result<(), AllocError> {
    match rule {
        CellRule::Setup => look_at_setup(listing, instance, plan, item, period),
        CellRule::Balance => look_at_balance(listing, instance, plan, item, period),
        CellRule::Made => look_at_made(listing, instance, plan, item, period),
        CellRule::Backlog => look_at_backlog(listing, instance, plan, item, period),
        CellRule::Lot => look_at_lot(listing, instance, plan, item, period),
        CellRule::Horizon => look_at_horizon(listing, instance, plan, item, period),
    }
}

// A rule on an item in each period.
fn look_at_item(
    listing: &mut Listing,
    instance: &Instance,
    plan: &Plan,
    rule: CellRule,
    item: u32,
) -> Result<(), AllocError> {
    for period in 1..instance.periods() + 1 {
        look_at_cell(listing, instance, plan, rule, item, period)?;
    }
    Ok(())
}

// A rule on each item and period.
fn look_at_items(
    listing: &mut Listing,
    instance: &Instance,
    plan: &Plan,
    rule: CellRule,
) -> Result<(), AllocError> {
    for item in 1..instance.items() + 1 {
        look_at_item(listing, instance, plan, rule, item)?;
    }
    Ok(())
}

// The time that a plan takes of a resource in a period.
fn load(instance: &Instance, plan: &Plan, resource: u32, period: u32) -> u128 {
    let mut total = 0u128;
    for item in 1..instance.items() + 1 {
        let made = u128::from(cell_of(&plan.make, item, period));
        let setups = u128::from(cell_of(&plan.setup, item, period));
        total = total.saturating_add(lot_time(instance, resource, item, made, setups));
    }
    total
}

// The lots that take time on a resource in a period.
fn write_lots(
    text: &mut String,
    instance: &Instance,
    plan: &Plan,
    resource: u32,
    period: u32,
) -> Result<(), AllocError> {
    let mut mark = ":";
    for item in 1..instance.items() + 1 {
        let made = u128::from(cell_of(&plan.make, item, period));
        let setups = u128::from(cell_of(&plan.setup, item, period));
        let time = lot_time(instance, resource, item, made, setups);
        if time > 0 {
            let name = instance.item_name(item);
            write!(text, "{mark} {name} {time}")?;
            mark = ",";
        }
    }
    Ok(())
}

// A resource that is used for longer than it has time in a period.
fn look_at_resource(
    listing: &mut Listing,
    instance: &Instance,
    plan: &Plan,
    resource: u32,
    period: u32,
) -> Result<(), AllocError> {
    let used = load(instance, plan, resource, period);
    let time = capacity_of(instance, resource, period);
    if used > u128::from(time) && listing.takes_one() {
        let name = resource_name(instance, resource);
        write!(
            listing.text,
            "  {name}, period {period}: {used} of its time are used, and it has {time}"
        )?;
        write_lots(&mut listing.text, instance, plan, resource, period)?;
        listing.text.push_str(".\n")?;
    }
    Ok(())
}

// A resource in each period.
fn look_at_periods(
    listing: &mut Listing,
    instance: &Instance,
    plan: &Plan,
    resource: u32,
) -> Result<(), AllocError> {
    for period in 1..instance.periods() + 1 {
        look_at_resource(listing, instance, plan, resource, period)?;
    }
    Ok(())
}

// All resources.
fn look_at_resources(
    listing: &mut Listing,
    instance: &Instance,
    plan: &Plan,
) -> Result<(), AllocError> {
    for resource in 1..instance.resources() + 1 {
        look_at_periods(listing, instance, plan, resource)?;
    }
    Ok(())
}

// A last stock outside its bounds.
fn look_at_end(
    listing: &mut Listing,
    instance: &Instance,
    plan: &Plan,
    item: u32,
) -> Result<(), AllocError> {
    let stock = cell_of(&plan.stock, item, instance.periods());
    let (least, most) = (end_min_of(instance, item), end_max_of(instance, item));
    if (stock < least || stock > most) && listing.takes_one() {
        let name = item_name(instance, item);
        write!(
            listing.text,
            "  {name}: {stock} are in stock at the end of the last period, and from {least} (`end_min`) to {most} (`end_max`) may be.\n"
        )?;
    }
    Ok(())
}

// All last stocks.
fn look_at_ends(listing: &mut Listing, instance: &Instance, plan: &Plan) -> Result<(), AllocError> {
    for item in 1..instance.items() + 1 {
        look_at_end(listing, instance, plan, item)?;
    }
    Ok(())
}

/// Words on all rules that a plan breaks; none where it breaks none.
pub(crate) fn on_rules(
    alloc: Global,
    instance: &Instance,
    plan: &Plan,
    file: &str,
) -> Result<String, AllocError> {
    let mut listing = Listing::new(alloc);
    look_at_items(&mut listing, instance, plan, CellRule::Setup)?;
    look_at_items(&mut listing, instance, plan, CellRule::Balance)?;
    look_at_items(&mut listing, instance, plan, CellRule::Made)?;
    look_at_resources(&mut listing, instance, plan)?;
    look_at_ends(&mut listing, instance, plan)?;
    look_at_items(&mut listing, instance, plan, CellRule::Backlog)?;
    look_at_items(&mut listing, instance, plan, CellRule::Lot)?;
    look_at_items(&mut listing, instance, plan, CellRule::Horizon)?;
    let broken = listing.closed()?;
    if broken.is_empty() {
        return Ok(broken);
    }
    format!(in alloc; "{file} breaks rules of plans:\n{broken}")
}
