// Words on stocks that don't add up.

use crate::cells::{cell_of, used_up_in};
use crate::listing::Listing;
use explain_lookup::{demand_of, item_name, lead_of, opening_of};
use lot_model::Instance;
use plan_rules::Plan;
use std::alloc::AllocError;

// Where the units of an item in a period come from, and where they go.
#[derive(Clone, Copy)]
struct Balance {
    before: u64,
    owed_before: u64,
    arriving: u64,
    demand: u64,
    used: u128,
    stock: u64,
    owed: u64,
}

// The lot that arrives in a period.
fn arriving_in(instance: &Instance, plan: &Plan, item: u32, period: u32) -> u64 {
    let lead = lead_of(instance, item);
    cell_of(&plan.make, item, period.saturating_sub(lead))
}

// The balance of an item in a period.
fn balance_of(instance: &Instance, plan: &Plan, item: u32, period: u32) -> Balance {
    let earlier = period.saturating_sub(1);
    Balance {
        before: if period <= 1 {
            opening_of(instance, item)
        } else {
            cell_of(&plan.stock, item, earlier)
        },
        owed_before: cell_of(&plan.backlog, item, earlier),
        arriving: arriving_in(instance, plan, item, period),
        demand: demand_of(instance, item, period),
        used: used_up_in(instance, &plan.make, item, period),
        stock: cell_of(&plan.stock, item, period),
        owed: cell_of(&plan.backlog, item, period),
    }
}

// What there is of an item: its stock before, what arrives, and what stays owed.
fn what_comes(balance: Balance) -> u128 {
    u128::from(balance.before)
        .saturating_add(u128::from(balance.arriving))
        .saturating_add(u128::from(balance.owed))
}

// What is taken away: demand, use by others, and what was owed before.
fn what_goes(balance: Balance) -> u128 {
    u128::from(balance.demand)
        .saturating_add(balance.used)
        .saturating_add(u128::from(balance.owed_before))
}

// What would have to be in stock, or is missing.
fn write_mending(text: &mut String, comes: u128, goes: u128) -> Result<(), AllocError> {
    if comes >= goes {
        let left = comes.saturating_sub(goes);
        write!(text, " `stock` would have to be {left}.\n")
    } else {
        let missing = goes.saturating_sub(comes);
        write!(text, " {missing} are missing.\n")
    }
}

// The parts of a balance.
fn write_parts(text: &mut String, balance: Balance) -> Result<(), AllocError> {
    let (before, arriving) = (balance.before, balance.arriving);
    let (demand, used, stock) = (balance.demand, balance.used, balance.stock);
    write!(
        text,
        "{before} in stock before and {arriving} arriving, less {demand} of demand and {used} for other items, don't leave {stock}"
    )?;
    if balance.owed_before > 0 || balance.owed > 0 {
        let (owed_before, owed) = (balance.owed_before, balance.owed);
        write!(
            text,
            " ({owed_before} were owed before, and {owed} are now)"
        )?;
    }
    text.push_str(":")
}

/// An item whose stock doesn't add up in a period.
pub(crate) fn look_at_balance(
    listing: &mut Listing,
    instance: &Instance,
    plan: &Plan,
    item: u32,
    period: u32,
) -> Result<(), AllocError> {
    let balance = balance_of(instance, plan, item, period);
    let (comes, goes) = (what_comes(balance), what_goes(balance));
    if comes == goes.saturating_add(u128::from(balance.stock)) {
        return Ok(());
    }
    if listing.takes_one() {
        let name = item_name(instance, item);
        write!(listing.text, "  {name}, period {period}: ")?;
        write_parts(&mut listing.text, balance)?;
        write_mending(&mut listing.text, comes, goes)?;
    }
    Ok(())
}
