// The terms of the rows that the rules of plans make.
ghost use Rattle.std.specs.Prelude.{◌≡◌, ◌≤◌, ◌-ℤ◌, ◌∷◌, [], ℕ, pos, negsuc, neg_ℤ, IfOk};
ghost use Rattle.lot_sizing.specs.Problem.{item_count, per_unit};
ghost use Rattle.lot_sizing.specs.Totals.{AreLargestTotals};
ghost use Rattle.lot_sizing.specs.declared.limits.TheConstants.{MAX_TOTAL};
ghost use Rattle.lot_model.specs.Views.{IsInstance};
ghost use Rattle.lin_rows.specs.Columns.{IsCell};
ghost use Rattle.lin_rows.specs.Base.{HasRow, arrives_now, earlier_terms, is_earlier, is_owing, made_terms, most_made, owing_terms, setup_terms, some_terms, stock_terms, term, terms_to, unit_terms, within_bound};
ghost use Rattle.lin_rows.specs.Made.{AreTermsOf, HasTermsOf, PutTerms};
ghost use Rattle.lin_rows.specs.declared.base.RowName.TheVariants.{Balance, Capacity, Least, Link};

use crate::{Column, RowName, Term};
use lot_model::Instance;
use std::alloc::{AllocError, Global};

// A term is put after the others, where it isn't 0 times its column.
fn push_term(terms: &mut Vec<Term>, column: Column, times: i128) -> Result<(), AllocError>
    ensures { IfOk result (λ _. PutTerms terms.old.items (term column times ∷ []) terms.new.items) }
{
    if times != 0 {
        terms.push(Term { column, times })?;
    }
    Ok(())
}

// Whether a lot that arrives in a period was started in an earlier one.
fn is_earlier(instance: &Instance, item: u32, period: u32) -> bool
    requires low { 1 ≤ item }
    requires high { item ≤ item_count instance.now }
    ensures { result ≡ is_earlier instance.now item period }
{
    let lead = instance.lead(item);
    lead >= 1 && lead < period
}

// The lot that arrives in a period, where it was started in an earlier one.
fn push_earlier(
    terms: &mut Vec<Term>,
    instance: &Instance,
    item: u32,
    period: u32,
) -> Result<(), AllocError>
    requires low { 1 ≤ item }
    requires high { item ≤ item_count instance.now }
    ensures { IfOk result (λ _.
        PutTerms terms.old.items (earlier_terms instance.now item period) terms.new.items) }
{
    if is_earlier(instance, item, period) {
        let started = period - instance.lead(item);
        push_term(
            terms,
            Column::X {
                item,
                period: started,
            },
            1,
        )?;
    }
    Ok(())
}

// How many units more of an item there are when one unit of another is started.
fn made_times(instance: &Instance, item: u32, other: u32) -> i128
    requires item_low { 1 ≤ item }
    requires item_high { item ≤ item_count instance.now }
    requires low { 1 ≤ other }
    requires high { other ≤ item_count instance.now }
    ensures { result
        ≡ (pos (arrives_now instance.now item other) -ℤ pos (per_unit instance.now item other)) }
{
    let own = if item == other && instance.lead(item) == 0 {
        1i128
    } else {
        0
    };
    own - instance.per_unit(item, other) as i128
}

// What lots of another item give of an item in a period, less what they take of it.
fn push_made_of(
    terms: &mut Vec<Term>,
    instance: &Instance,
    item: u32,
    period: u32,
    other: u32,
) -> Result<(), AllocError>
    requires item_low { 1 ≤ item }
    requires item_high { item ≤ item_count instance.now }
    requires low { 1 ≤ other }
    requires high { other ≤ item_count instance.now }
    ensures { IfOk result (λ _.
        PutTerms terms.old.items (made_terms instance.now item period other) terms.new.items) }
{
    if item == other {
        push_earlier(terms, instance, item, period)?;
    }
    let times = made_times(instance, item, other);
    push_term(
        terms,
        Column::X {
            item: other,
            period,
        },
        times,
    )?;
    Ok(())
}

// What arrives of an item in a period, less what goes into others.
fn push_made(
    terms: &mut Vec<Term>,
    instance: &Instance,
    item: u32,
    period: u32,
) -> Result<(), AllocError>
    requires low { 1 ≤ item }
    requires high { item ≤ item_count instance.now }
    ensures { IfOk result (λ _.
        PutTerms terms.old.items
        (terms_to (item_count instance.now) (made_terms instance.now item period))
        terms.new.items) }
{
    for other in 1..instance.items() + 1 {
        push_made_of(terms, instance, item, period, other)?;
    }
    Ok(())
}

// The stock at the end of a period, where it is a column.
fn push_stock(terms: &mut Vec<Term>, item: u32, period: u32, times: i128) -> Result<(), AllocError>
    ensures { IfOk result (λ _.
        PutTerms terms.old.items (stock_terms item period times) terms.new.items) }
{
    if period > 0 {
        push_term(terms, Column::S { item, period }, times)?;
    }
    Ok(())
}

// Whether the backlog at the end of a period is a column.
fn is_owing(instance: &Instance, item: u32, period: u32) -> bool
    requires low { 1 ≤ item }
    requires high { item ≤ item_count instance.now }
    ensures { result ≡ is_owing instance.now item period }
{
    period >= 1 && period < instance.periods() && instance.has_backlog_cost(item)
}

// The backlog at the end of a period, where it is a column.
fn push_owing(
    terms: &mut Vec<Term>,
    instance: &Instance,
    item: u32,
    period: u32,
    times: i128,
) -> Result<(), AllocError>
    requires low { 1 ≤ item }
    requires high { item ≤ item_count instance.now }
    ensures { IfOk result (λ _.
        PutTerms terms.old.items (owing_terms instance.now item period times) terms.new.items) }
{
    if is_owing(instance, item, period) {
        push_term(terms, Column::R { item, period }, times)?;
    }
    Ok(())
}

// The terms of a balance.
fn balance_terms(
    alloc: Global,
    instance: &Instance,
    item: u32,
    period: u32,
) -> Result<Vec<Term>, AllocError>
    requires cell { IsCell instance.now item period }
    ensures { IfOk result (λ terms. AreTermsOf instance.now (Balance item period) terms.items) }
{
    let mut terms = Vec::new(alloc);
    push_made(&mut terms, instance, item, period)?;
    push_stock(&mut terms, item, period - 1, 1)?;
    push_stock(&mut terms, item, period, -1)?;
    push_owing(&mut terms, instance, item, period - 1, -1)?;
    push_owing(&mut terms, instance, item, period, 1)?;
    Ok(terms)
}

// The lesser of a number and a bound, where there is one.
fn within_bound(number: u64, bound: Option<u64>) -> u64
    ensures value { result ≡ within_bound number bound }
    ensures less { result ≤ number }
{
    match bound {
        None => number,
        Some(most) => number.min(most),
    }
}

// The most that a setup makes of an item.
fn most_made(instance: &Instance, item: u32) -> u64
    requires low { 1 ≤ item }
    requires high { item ≤ item_count instance.now }
    ensures value { (total : ℕ → ℕ) × AreLargestTotals instance.now total
        × (result ≡ most_made instance.now total item) }
    ensures small { result ≤ MAX_TOTAL }
{
    within_bound(instance.largest_total(item), instance.max_lot(item))
}

// The terms of a link of what is made to its setup.
fn link_terms(
    alloc: Global,
    instance: &Instance,
    item: u32,
    period: u32,
) -> Result<Vec<Term>, AllocError>
    requires cell { IsCell instance.now item period }
    ensures { IfOk result (λ terms. HasTermsOf instance.now (Link item period) terms.items) }
{
    let mut terms = Vec::new(alloc);
    let most = most_made(instance, item) as i128;
    push_term(&mut terms, Column::X { item, period }, -1)?;
    push_term(&mut terms, Column::Y { item, period }, most)?;
    Ok(terms)
}

// The terms of a least lot.
fn least_terms(
    alloc: Global,
    instance: &Instance,
    item: u32,
    period: u32,
) -> Result<Vec<Term>, AllocError>
    requires cell { IsCell instance.now item period }
    ensures { IfOk result (λ terms. AreTermsOf instance.now (Least item period) terms.items) }
{
    let mut terms = Vec::new(alloc);
    let times = taken(instance.min_lot(item));
    push_term(&mut terms, Column::X { item, period }, 1)?;
    push_term(&mut terms, Column::Y { item, period }, times)?;
    Ok(terms)
}

// An amount that is taken away.
pub(crate) fn taken(amount: u64) -> i128
    ensures { result ≡ neg_ℤ (pos amount) }
{
    -(amount as i128)
}

// The time that making units takes of a resource, item by item.
fn push_unit_times(
    terms: &mut Vec<Term>,
    instance: &Instance,
    resource: u32,
    period: u32,
) -> Result<(), AllocError>
    ensures { IfOk result (λ _.
        PutTerms terms.old.items
        (terms_to (item_count instance.now) (unit_terms instance.now resource period))
        terms.new.items) }
{
    for item in 1..instance.items() + 1 {
        let times = taken(instance.unit_time(item, resource));
        push_term(terms, Column::X { item, period }, times)?;
    }
    Ok(())
}

// The time that setups take of a resource, item by item.
fn push_setup_times(
    terms: &mut Vec<Term>,
    instance: &Instance,
    resource: u32,
    period: u32,
) -> Result<(), AllocError>
    ensures { IfOk result (λ _.
        PutTerms terms.old.items
        (terms_to (item_count instance.now) (setup_terms instance.now resource period))
        terms.new.items) }
{
    for item in 1..instance.items() + 1 {
        let times = taken(instance.setup_time(item, resource));
        push_term(terms, Column::Y { item, period }, times)?;
    }
    Ok(())
}

// The terms of a resource's capacity.
fn capacity_terms(
    alloc: Global,
    instance: &Instance,
    resource: u32,
    period: u32,
) -> Result<Vec<Term>, AllocError>
    ensures { IfOk result (λ terms.
        AreTermsOf instance.now (Capacity resource period) terms.items) }
{
    let mut terms = Vec::new(alloc);
    push_unit_times(&mut terms, instance, resource, period)?;
    push_setup_times(&mut terms, instance, resource, period)?;
    Ok(terms)
}

// One term.
fn single_term(alloc: Global, column: Column, times: i128) -> Result<Vec<Term>, AllocError>
    ensures { IfOk result (λ terms. terms.items ≡ some_terms (term column times ∷ [])) }
{
    let mut terms = Vec::new(alloc);
    push_term(&mut terms, column, times)?;
    Ok(terms)
}

// The terms of a row that the model has.
pub(crate) fn terms_of(
    alloc: Global,
    instance: &Instance,
    name: RowName,
) -> Result<Vec<Term>, AllocError>
    requires some { HasRow instance.now name }
    ensures terms { IfOk result (λ terms. HasTermsOf instance.now name terms.items) }
    ensures instance { IfOk result (λ _. IsInstance instance.now) }
{
    let last = instance.periods();
    match name {
        RowName::Balance(item, period) => balance_terms(alloc, instance, item, period),
        RowName::Link(item, period) => link_terms(alloc, instance, item, period),
        RowName::Capacity(resource, period) => capacity_terms(alloc, instance, resource, period),
        RowName::EndMin(item) => single_term(alloc, Column::S { item, period: last }, 1),
        RowName::EndMax(item) => single_term(alloc, Column::S { item, period: last }, -1),
        RowName::Top(item, period) => single_term(alloc, Column::Y { item, period }, -1),
        RowName::Least(item, period) => least_terms(alloc, instance, item, period),
        RowName::Late(item, period) => single_term(alloc, Column::X { item, period }, -1),
        RowName::Path(_) | RowName::Cut(_) => Ok(Vec::new(alloc)),
    }
}
