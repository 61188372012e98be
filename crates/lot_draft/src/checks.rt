// The first rule of counts, names, lists, numbers and lines that a draft breaks.
ghost use Rattle.std.specs.Prelude.{◌≡◌, ◌≤◌, ◌*◌, ◌^◌, false, length, map, nat_le, None, option_map, pos, take};
ghost use Rattle.std.specs.List.{sum_by};
ghost use Rattle.lot_draft.specs.Raw.{raw_item, raw_model, raw_need, raw_resource, raw_use};
ghost use Rattle.lot_draft.specs.Refusals.{capacity_fault, count_fault, entry_fault, first_in, is_among, is_from, item_lines_fault, item_lists_fault, item_lots_fault, item_name_fault, item_names, item_numbers_fault, item_repeat, item_stocks_fault, lines_fault, name_fault, need_fault, need_names, number_fault, numbers_fault, optional_number_fault, optional_series_fault, or_then, plain_fault, repeat_fault, resource_name_fault, resource_names, resource_repeat, series_fault, unless, use_fault, use_names};
ghost use Rattle.lot_sizing.specs.Problem.{item_count};
ghost use Rattle.lot_sizing.specs.declared.limits.TheConstants.{MAX_AMOUNT, MAX_BILL_LINES, MAX_END_STOCK, MAX_ITEMS, MAX_LEAD, MAX_PERIODS, MAX_QUANTITY, MAX_RESOURCES};
ghost use Rattle.lot_draft.specs.Meaning.{problem_of, HaveNeeds};

use crate::names::is_name;
use crate::{
    Draft, DraftItem, DraftNeed, DraftResource, DraftUse, Key, ModelCode, ModelFault, Place,
};
use lot_sizing::limits::{
    MAX_AMOUNT, MAX_BILL_LINES, MAX_END_STOCK, MAX_ITEMS, MAX_LEAD, MAX_PERIODS, MAX_QUANTITY,
    MAX_RESOURCES,
};

/// A fault at a place.
pub fn fault(
    code: ModelCode,
    place: Place,
    key: Option<Key>,
    period: Option<u64>,
) -> Option<ModelFault>
    ensures { result ≡ unless false code place key period }
{
    Some(ModelFault {
        code,
        place,
        key,
        period,
    })
}

// Whether there aren't too many lines of components in all.
fn has_few_lines(items: &[DraftItem]) -> bool
    ensures { result ≡ nat_le (sum_by (λ i. length i.needs) (map raw_item items.now))
        MAX_BILL_LINES }
{
    let mut count = 0usize;
    for at in 0..items.len() {
        let lines = items[at].needs.len();
        if lines > MAX_BILL_LINES as usize - count {
            return false;
        }
        count += lines;
    }
    true
}

// So many periods, resources, items and lines of components.
fn count_fault(draft: &Draft) -> Option<ModelFault>
    ensures { result ≡ count_fault (raw_model draft.now) }
{
    if !is_from(draft.periods, 1, MAX_PERIODS as u64) {
        return fault(ModelCode::OutOfRange, Place::Root, Some(Key::Periods), None);
    }
    if draft.resources.len() > MAX_RESOURCES as usize {
        return fault(
            ModelCode::OutOfRange,
            Place::Root,
            Some(Key::Resource),
            None,
        );
    }
    if draft.items.is_empty() || draft.items.len() > MAX_ITEMS as usize {
        return fault(ModelCode::OutOfRange, Place::Root, Some(Key::Item), None);
    }
    if !has_few_lines(&draft.items) {
        return fault(ModelCode::OutOfRange, Place::Root, Some(Key::Needs), None);
    }
    None
}

// Whether a number is from low to the most.
fn is_from(number: i64, low: u64, most: u64) -> bool
    ensures { result ≡ is_from (pos low) (pos most) number }
{
    number >= 0 && low <= number as u64 && number as u64 <= most
}

// A number from low to the most.
fn number_fault(place: Place, key: Key, number: i64, low: u64, most: u64) -> Option<ModelFault>
    ensures { result ≡ number_fault (pos low) (pos most) place key number }
{
    if is_from(number, low, most) {
        return None;
    }
    fault(ModelCode::OutOfRange, place, Some(key), None)
}

// An entry of a list, not negative and not too large.
fn entry_fault(place: Place, key: Key, number: i64, period: u64) -> Option<ModelFault>
    ensures { result ≡ entry_fault place key period number }
{
    if is_from(number, 0, MAX_AMOUNT) {
        return None;
    }
    fault(ModelCode::OutOfRange, place, Some(key), Some(period))
}

// A list with an entry for each period, none negative or too large.
fn series_fault(place: Place, key: Key, list: &[i64], periods: u32) -> Option<ModelFault>
    ensures { result ≡ series_fault (pos periods) place key list.now }
{
    if list.len() != periods as usize {
        return fault(ModelCode::WrongLength, place, Some(key), None);
    }
    for at in 0..list.len() {
        if let Some(found) = entry_fault(place, key, list[at], at as u64 + 1) {
            return Some(found);
        }
    }
    None
}

// The same of a list that may be absent.
fn optional_series_fault(
    place: Place,
    key: Key,
    list: &Option<Vec<i64>>,
    periods: u32,
) -> Option<ModelFault>
    ensures { result ≡ optional_series_fault (pos periods) place key
        (option_map (λ v. v.items) list.now) }
{
    match list {
        Some(list) => series_fault(place, key, list, periods),
        None => None,
    }
}

// A number from low to the most, where there is one.
fn optional_number_fault(
    place: Place,
    key: Key,
    number: Option<i64>,
    low: u64,
    most: u64,
) -> Option<ModelFault>
    ensures { result ≡ optional_number_fault (pos low) (pos most) place key number }
{
    match number {
        Some(number) => number_fault(place, key, number, low, most),
        None => None,
    }
}

// The lists of an item, key by key.
fn item_lists_fault(item: &DraftItem, number: u32, periods: u32) -> Option<ModelFault>
    ensures { result ≡ item_lists_fault (pos periods) number (raw_item item.now) }
{
    let at = Place::Item(number);
    if let Some(found) = series_fault(at, Key::Demand, &item.demand, periods) {
        return Some(found);
    }
    if let Some(found) = series_fault(at, Key::UnitCost, &item.unit_cost, periods) {
        return Some(found);
    }
    if let Some(found) = series_fault(at, Key::SetupCost, &item.setup_cost, periods) {
        return Some(found);
    }
    if let Some(found) = series_fault(at, Key::HoldCost, &item.hold_cost, periods) {
        return Some(found);
    }
    optional_series_fault(at, Key::BacklogCost, &item.backlog_cost, periods)
}

// The stocks of an item before the first period and at the end of the last one.
fn item_stocks_fault(item: &DraftItem, number: u32) -> Option<ModelFault>
    ensures { result ≡ item_stocks_fault number (raw_item item.now) }
{
    let at = Place::Item(number);
    if let Some(found) = number_fault(at, Key::Opening, item.opening, 0, MAX_AMOUNT) {
        return Some(found);
    }
    if let Some(found) = number_fault(at, Key::EndMin, item.end_min, 0, MAX_AMOUNT) {
        return Some(found);
    }
    optional_number_fault(at, Key::EndMax, item.end_max, 0, MAX_END_STOCK)
}

// The lead time of an item and the bounds of its lots.
fn item_lots_fault(item: &DraftItem, number: u32) -> Option<ModelFault>
    ensures { result ≡ item_lots_fault number (raw_item item.now) }
{
    let at = Place::Item(number);
    if let Some(found) = number_fault(at, Key::Lead, item.lead, 0, MAX_LEAD as u64) {
        return Some(found);
    }
    if let Some(found) = number_fault(at, Key::MinLot, item.min_lot, 0, MAX_AMOUNT) {
        return Some(found);
    }
    optional_number_fault(at, Key::MaxLot, item.max_lot, 1, MAX_AMOUNT)
}

// The lists and numbers of an item, key by key.
fn item_numbers_fault(item: &DraftItem, number: u32, periods: u32) -> Option<ModelFault>
    ensures { result ≡ item_numbers_fault (pos periods) number (raw_item item.now) }
{
    if let Some(found) = item_lists_fault(item, number, periods) {
        return Some(found);
    }
    if let Some(found) = item_stocks_fault(item, number) {
        return Some(found);
    }
    item_lots_fault(item, number)
}

// A resource's name.
fn resource_name_fault(resource: &DraftResource, number: u32) -> Option<ModelFault>
    ensures { result ≡ resource_name_fault number (raw_resource resource.now) }
{
    if is_name(&resource.name) {
        return None;
    }
    fault(ModelCode::BadName, Place::Resource(number), None, None)
}

// An item's name.
fn item_name_fault(item: &DraftItem, number: u32) -> Option<ModelFault>
    ensures { result ≡ item_name_fault number (raw_item item.now) }
{
    if is_name(&item.name) {
        return None;
    }
    fault(ModelCode::BadName, Place::Item(number), None, None)
}

// The names of resources.
fn resource_names_fault(resources: &[DraftResource]) -> Option<ModelFault>
    requires few { length resources.now ≤ MAX_RESOURCES }
    ensures { result ≡ first_in resource_name_fault 1 (map raw_resource resources.now) }
{
    for at in 0..resources.len() {
        let resource = &resources[at];
        if let Some(found) = resource_name_fault(resource, at as u32 + 1) {
            return Some(found);
        }
    }
    None
}

// The names of items.
fn item_names_fault(items: &[DraftItem]) -> Option<ModelFault>
    requires few { length items.now ≤ MAX_ITEMS }
    ensures { result ≡ first_in item_name_fault 1 (map raw_item items.now) }
{
    for at in 0..items.len() {
        let item = &items[at];
        if let Some(found) = item_name_fault(item, at as u32 + 1) {
            return Some(found);
        }
    }
    None
}

// The capacities of resources.
fn capacities_fault(resources: &[DraftResource], periods: u32) -> Option<ModelFault>
    requires few { length resources.now ≤ MAX_RESOURCES }
    ensures { result ≡ first_in (capacity_fault (pos periods)) 1 (map raw_resource resources.now) }
{
    for at in 0..resources.len() {
        let resource = &resources[at];
        if let Some(found) = capacity_fault(resource, at as u32 + 1, periods) {
            return Some(found);
        }
    }
    None
}

// The capacities of a resource.
fn capacity_fault(resource: &DraftResource, number: u32, periods: u32) -> Option<ModelFault>
    ensures { result ≡ capacity_fault (pos periods) number (raw_resource resource.now) }
{
    series_fault(
        Place::Resource(number),
        Key::Capacity,
        &resource.capacity,
        periods,
    )
}

// The lists and numbers of items.
fn items_numbers_fault(items: &[DraftItem], periods: u32) -> Option<ModelFault>
    requires few { length items.now ≤ MAX_ITEMS }
    ensures { result ≡ first_in (item_numbers_fault (pos periods)) 1 (map raw_item items.now) }
{
    for at in 0..items.len() {
        let item = &items[at];
        if let Some(found) = item_numbers_fault(item, at as u32 + 1, periods) {
            return Some(found);
        }
    }
    None
}

// Whether one of the first items has a name.
fn is_item_name(items: &[DraftItem], count: usize, name: &str) -> bool
    requires { count ≤ length items.now }
    ensures { result ≡ is_among (take count (item_names (map raw_item items.now))) name.now }
{
    for at in 0..count {
        let item = &items[at];
        if item.name.as_str() == name {
            return true;
        }
    }
    false
}

// Whether one of the first resources has a name.
fn is_resource_name(resources: &[DraftResource], count: usize, name: &str) -> bool
    requires { count ≤ length resources.now }
    ensures { result ≡ is_among (take count (resource_names (map raw_resource resources.now)))
        name.now }
{
    for at in 0..count {
        let resource = &resources[at];
        if resource.name.as_str() == name {
            return true;
        }
    }
    false
}

/// Whether one of the first lines of components names an item.
pub fn is_need_name(needs: &[DraftNeed], count: usize, name: &str) -> bool
    requires { count ≤ length needs.now }
    ensures { result ≡ is_among (take count (need_names (map raw_need needs.now))) name.now }
{
    for at in 0..count {
        let need = &needs[at];
        if need.item.as_str() == name {
            return true;
        }
    }
    false
}

// Whether one of the first lines of resources names a resource.
fn is_use_name(uses: &[DraftUse], count: usize, name: &str) -> bool
    requires { count ≤ length uses.now }
    ensures { result ≡ is_among (take count (use_names (map raw_use uses.now))) name.now }
{
    for at in 0..count {
        let usage = &uses[at];
        if usage.resource.as_str() == name {
            return true;
        }
    }
    false
}

// The name of a resource, where it is that of an earlier one.
fn resource_repeat(
    resources: &[DraftResource],
    resource: &DraftResource,
    number: u32,
) -> Option<ModelFault>
    requires low { 1 ≤ number }
    requires high { number ≤ length resources.now }
    ensures { result ≡ resource_repeat (map raw_resource resources.now) number
        (raw_resource resource.now) }
{
    if is_resource_name(resources, (number - 1) as usize, &resource.name) {
        return fault(ModelCode::RepeatedName, Place::Resource(number), None, None);
    }
    None
}

// Names of resources that stand before.
fn resource_repeats_fault(resources: &[DraftResource]) -> Option<ModelFault>
    requires few { length resources.now ≤ MAX_RESOURCES }
    ensures { result ≡ first_in (resource_repeat (map raw_resource resources.now)) 1
        (map raw_resource resources.now) }
{
    for at in 0..resources.len() {
        let resource = &resources[at];
        if let Some(found) = resource_repeat(resources, resource, at as u32 + 1) {
            return Some(found);
        }
    }
    None
}

// The name of a item, where it is that of an earlier one.
fn item_repeat(items: &[DraftItem], item: &DraftItem, number: u32) -> Option<ModelFault>
    requires low { 1 ≤ number }
    requires high { number ≤ length items.now }
    ensures { result ≡ item_repeat (map raw_item items.now) number (raw_item item.now) }
{
    if is_item_name(items, (number - 1) as usize, &item.name) {
        return fault(ModelCode::RepeatedName, Place::Item(number), None, None);
    }
    None
}

// Names of items that stand before.
fn item_repeats_fault(items: &[DraftItem]) -> Option<ModelFault>
    requires few { length items.now ≤ MAX_ITEMS }
    ensures { result ≡ first_in (item_repeat (map raw_item items.now)) 1 (map raw_item items.now) }
{
    for at in 0..items.len() {
        let item = &items[at];
        if let Some(found) = item_repeat(items, item, at as u32 + 1) {
            return Some(found);
        }
    }
    None
}

// A line of components: an unknown item, one of an earlier line, or a quantity out of range.
fn need_fault(
    items: &[DraftItem],
    item: u32,
    needs: &[DraftNeed],
    need: &DraftNeed,
    line: u32,
) -> Option<ModelFault>
    requires low { 1 ≤ line }
    requires high { line ≤ length needs.now }
    ensures { result ≡ need_fault (item_names (map raw_item items.now)) item
        (map raw_need needs.now) line (raw_need need.now) }
{
    let at = Place::Need(item, line);
    if !is_item_name(items, items.len(), &need.item) {
        return fault(ModelCode::UnknownName, at, None, None);
    }
    if is_need_name(needs, (line - 1) as usize, &need.item) {
        return fault(ModelCode::RepeatedName, at, None, None);
    }
    number_fault(at, Key::Quantity, need.quantity, 1, MAX_QUANTITY)
}

// A line of resources: an unknown one, one of an earlier line, or a time out of range.
fn use_fault(
    resources: &[DraftResource],
    item: u32,
    uses: &[DraftUse],
    usage: &DraftUse,
    line: u32,
) -> Option<ModelFault>
    requires low { 1 ≤ line }
    requires high { line ≤ length uses.now }
    ensures { result ≡ use_fault (resource_names (map raw_resource resources.now)) item
        (map raw_use uses.now) line (raw_use usage.now) }
{
    let at = Place::Usage(item, line);
    if !is_resource_name(resources, resources.len(), &usage.resource) {
        return fault(ModelCode::UnknownName, at, None, None);
    }
    if is_use_name(uses, (line - 1) as usize, &usage.resource) {
        return fault(ModelCode::RepeatedName, at, None, None);
    }
    if let Some(found) = number_fault(at, Key::Unit, usage.unit, 0, MAX_AMOUNT) {
        return Some(found);
    }
    number_fault(at, Key::Setup, usage.setup, 0, MAX_AMOUNT)
}

// The lines of resources of an item.
fn uses_fault(resources: &[DraftResource], item: u32, uses: &[DraftUse]) -> Option<ModelFault>
    requires few { length resources.now ≤ MAX_RESOURCES }
    ensures { result ≡ first_in
        (use_fault (resource_names (map raw_resource resources.now)) item (map raw_use uses.now)) 1
        (map raw_use uses.now) }
{
    for at in 0..uses.len() {
        let usage = &uses[at];
        if let Some(found) = use_fault(resources, item, uses, usage, at as u32 + 1) {
            return Some(found);
        }
    }
    None
}

// The lines of components of an item.
fn needs_fault(items: &[DraftItem], item: u32, needs: &[DraftNeed]) -> Option<ModelFault>
    requires few { length needs.now ≤ MAX_BILL_LINES }
    ensures { result ≡ first_in
        (need_fault (item_names (map raw_item items.now)) item (map raw_need needs.now)) 1
        (map raw_need needs.now) }
{
    for at in 0..needs.len() {
        let need = &needs[at];
        if let Some(found) = need_fault(items, item, needs, need, at as u32 + 1) {
            return Some(found);
        }
    }
    None
}

// The lines of an item: its components, then its resources.
fn item_lines_fault(draft: &Draft, number: u32, item: &DraftItem) -> Option<ModelFault>
    requires few { length draft.now.resources.items ≤ MAX_RESOURCES }
    requires lines { length item.now.needs.items ≤ MAX_BILL_LINES }
    ensures { result ≡ item_lines_fault (raw_model draft.now) number (raw_item item.now) }
{
    if let Some(found) = needs_fault(&draft.items, number, &item.needs) {
        return Some(found);
    }
    uses_fault(&draft.resources, number, &item.uses)
}

// The lines of the items.
fn lines_fault(draft: &Draft) -> Option<ModelFault>
    requires resources { length draft.now.resources.items ≤ MAX_RESOURCES }
    requires items { length draft.now.items.items ≤ MAX_ITEMS }
    requires lines { sum_by (λ i. length i.needs) (map raw_item draft.now.items.items)
        ≤ MAX_BILL_LINES }
    ensures { result ≡ lines_fault (raw_model draft.now) }
{
    for at in 0..draft.items.len() {
        let item = &draft.items[at];
        if let Some(found) = item_lines_fault(draft, at as u32 + 1, item) {
            return Some(found);
        }
    }
    None
}

// The names of resources and items, then repeated ones.
fn names_fault(draft: &Draft) -> Option<ModelFault>
    requires resources { length draft.now.resources.items ≤ MAX_RESOURCES }
    requires items { length draft.now.items.items ≤ MAX_ITEMS }
    ensures { result ≡ or_then (name_fault (raw_model draft.now))
        (repeat_fault (raw_model draft.now)) }
{
    if let Some(found) = resource_names_fault(&draft.resources) {
        return Some(found);
    }
    if let Some(found) = item_names_fault(&draft.items) {
        return Some(found);
    }
    if let Some(found) = resource_repeats_fault(&draft.resources) {
        return Some(found);
    }
    item_repeats_fault(&draft.items)
}

// The lists and numbers, then the lines.
fn numbers_and_lines_fault(draft: &Draft, periods: u32) -> Option<ModelFault>
    requires resources { length draft.now.resources.items ≤ MAX_RESOURCES }
    requires items { length draft.now.items.items ≤ MAX_ITEMS }
    requires lines { sum_by (λ i. length i.needs) (map raw_item draft.now.items.items)
        ≤ MAX_BILL_LINES }
    requires periods { draft.now.periods ≡ pos periods }
    ensures { result ≡ or_then (numbers_fault (raw_model draft.now))
        (lines_fault (raw_model draft.now)) }
{
    if let Some(found) = capacities_fault(&draft.resources, periods) {
        return Some(found);
    }
    if let Some(found) = items_numbers_fault(&draft.items, periods) {
        return Some(found);
    }
    lines_fault(draft)
}

/// The first rule of counts, names, lists, numbers and lines that a draft breaks.
///
/// Names and lines are compared pair by pair, of which there are at most `MAX_BILL_LINES` squared.
///
/// Where there is none, the components of each item are items, and one unit takes at most `MAX_QUANTITY` of each.
pub fn plain_fault(draft: &Draft) -> Option<ModelFault>
    ensures value { result ≡ plain_fault (raw_model draft.now) }
    ensures count { result ≡ None → item_count (problem_of (raw_model draft.now)) ≤ MAX_ITEMS }
    ensures needs { result ≡ None → HaveNeeds (problem_of (raw_model draft.now)) }
{
    if let Some(found) = count_fault(draft) {
        return Some(found);
    }
    if let Some(found) = names_fault(draft) {
        return Some(found);
    }
    numbers_and_lines_fault(draft, draft.periods as u32)
}
