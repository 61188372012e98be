// The block cut of an item.
use cert_lines::Cut;
use echelon_rows::limits::{MAX_PRICE, MAX_STEP};
use integer_grids::numbers::none_is_negative;
use lin_rows::Potentials;
use price_items::{Costs, Item, Served, Serving};
use std::alloc::{AllocError, Global};

// Prices as a cut has them; None where one is below 0 or past the largest one.
fn cut_prices(alloc: Global, list: &[i64]) -> Result<Option<Vec<u64>>, AllocError> {
    let mut found = Vec::with_capacity(alloc, list.len())?;
    for number in list {
        match u64::try_from(*number) {
            Ok(price) if price <= MAX_PRICE => found.push(price)?,
            _ => return Ok(None),
        }
    }
    Ok(Some(found))
}

// What all positions up to each one cost, as potentials; None where one is past the largest one.
fn cut_steps(alloc: Global, places: &[Served]) -> Result<Option<Vec<u128>>, AllocError> {
    let mut found = Vec::with_capacity(alloc, places.len())?;
    for place in places {
        match u128::try_from(place.cost) {
            Ok(step) if step <= MAX_STEP => found.push(step)?,
            _ => return Ok(None),
        }
    }
    Ok(Some(found))
}

// The block cut of an item by its costs and the potentials that the recursion gives; None where a number is past its limit
// or doesn't fit.
pub(crate) fn item_cut(
    alloc: Global,
    item: &Item,
    costs: &Costs,
    serving: &Serving,
) -> Result<Option<Cut>, AllocError> {
    if !none_is_negative(&costs.hold) || serving.cost().is_none() {
        return Ok(None);
    }
    let Some(setup) = cut_prices(alloc, &costs.setup)? else {
        return Ok(None);
    };
    let Some(unit) = cut_prices(alloc, &costs.unit)? else {
        return Ok(None);
    };
    let Some(hold) = cut_prices(alloc, &costs.hold)? else {
        return Ok(None);
    };
    let Some(back) = cut_prices(alloc, &costs.back)? else {
        return Ok(None);
    };
    let Some(steps) = cut_steps(alloc, &serving.places)? else {
        return Ok(None);
    };
    let potentials = Potentials {
        setup,
        unit,
        hold,
        back,
        steps,
    };
    Ok(Some(Cut::Block {
        item: item.number,
        potentials,
    }))
}
