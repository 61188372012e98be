// The first component with a backlog cost, the first crossed ends, and the first crossed lots.
ghost use Rattle.std.specs.Prelude.{◌≡◌, ◌≤◌, length, map, None, option_map};
ghost use Rattle.std.specs.List.{sum_by};
ghost use Rattle.lot_sizing.specs.Problem.{IsWithinLimits};
ghost use Rattle.lot_sizing.specs.declared.limits.TheConstants.{MAX_BILL_LINES, MAX_ITEMS};
ghost use Rattle.lot_draft.specs.Raw.{raw_item, raw_model};
ghost use Rattle.lot_draft.specs.Refusals.{backlog_fault, ends_fault, first_in, is_component, is_ordered, later_fault, lots_fault, plain_fault};
ghost use Rattle.lot_draft.specs.Meaning.{problem_of};

use crate::checks::{fault, is_need_name};
use crate::{Draft, DraftItem, ModelCode, ModelFault, Place};

// Whether some item takes one of this name.
fn is_component(items: &[DraftItem], name: &str) -> bool
    ensures { result ≡ is_component (map raw_item items.now) name.now }
{
    for at in 0..items.len() {
        let item = &items[at];
        if is_need_name(&item.needs, item.needs.len(), name) {
            return true;
        }
    }
    false
}

// Whether the least is at most the largest, where there is one.
fn is_ordered(least: i64, most: Option<i64>) -> bool
    ensures { result ≡ is_ordered least most }
{
    match most {
        Some(most) => least <= most,
        None => true,
    }
}

// A component with a backlog cost.
fn backlog_fault(items: &[DraftItem], item: &DraftItem, number: u32) -> Option<ModelFault>
    ensures { result ≡ backlog_fault (map raw_item items.now) number (raw_item item.now) }
{
    if item.backlog_cost.is_some() && is_component(items, &item.name) {
        return fault(
            ModelCode::BacklogOnComponent,
            Place::Item(number),
            None,
            None,
        );
    }
    None
}

// Crossed ends.
fn ends_fault(item: &DraftItem, number: u32) -> Option<ModelFault>
    ensures { result ≡ ends_fault number (raw_item item.now) }
{
    if is_ordered(item.end_min, item.end_max) {
        return None;
    }
    fault(ModelCode::EndsCrossed, Place::Item(number), None, None)
}

// Crossed lots.
fn lots_fault(item: &DraftItem, number: u32) -> Option<ModelFault>
    ensures { result ≡ lots_fault number (raw_item item.now) }
{
    if is_ordered(item.min_lot, item.max_lot) {
        return None;
    }
    fault(ModelCode::LotsCrossed, Place::Item(number), None, None)
}

// The first component with a backlog cost.
fn backlogs_fault(items: &[DraftItem]) -> Option<ModelFault>
    requires few { length items.now ≤ MAX_ITEMS }
    ensures { result ≡ first_in (backlog_fault (map raw_item items.now)) 1
        (map raw_item items.now) }
{
    for at in 0..items.len() {
        let item = &items[at];
        if let Some(found) = backlog_fault(items, item, at as u32 + 1) {
            return Some(found);
        }
    }
    None
}

// The first crossed ends.
fn all_ends_fault(items: &[DraftItem]) -> Option<ModelFault>
    requires few { length items.now ≤ MAX_ITEMS }
    ensures { result ≡ first_in ends_fault 1 (map raw_item items.now) }
{
    for at in 0..items.len() {
        let item = &items[at];
        if let Some(found) = ends_fault(item, at as u32 + 1) {
            return Some(found);
        }
    }
    None
}

// The first crossed lots.
fn all_lots_fault(items: &[DraftItem]) -> Option<ModelFault>
    requires few { length items.now ≤ MAX_ITEMS }
    ensures { result ≡ first_in lots_fault 1 (map raw_item items.now) }
{
    for at in 0..items.len() {
        let item = &items[at];
        if let Some(found) = lots_fault(item, at as u32 + 1) {
            return Some(found);
        }
    }
    None
}

/// The first component with a backlog cost, then the first crossed ends, then the first crossed lots,
/// in a draft with no plain fault.
///
/// Where there is none, the draft stands for a problem within the limits.
pub fn later_fault(draft: &Draft) -> Option<ModelFault>
    requires { plain_fault (raw_model draft.now) ≡ None }
    ensures value { result ≡ later_fault (raw_model draft.now) }
    ensures limits { result ≡ None → IsWithinLimits (problem_of (raw_model draft.now)) }
    ensures lines { result ≡ None → sum_by (λ i. length i.needs)
        (problem_of (raw_model draft.now)).items ≤ MAX_BILL_LINES }
{
    if let Some(found) = backlogs_fault(&draft.items) {
        return Some(found);
    }
    if let Some(found) = all_ends_fault(&draft.items) {
        return Some(found);
    }
    all_lots_fault(&draft.items)
}
