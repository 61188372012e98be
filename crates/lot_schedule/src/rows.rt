// The slot whose row a record is.
ghost use Rattle.std.specs.Prelude.{◌≡◌, ◌≢◌, ◌≤◌, ℕ, IfSome, IfNone, decimal};
ghost use Rattle.csv.specs.Records.{fields_of};
ghost use Rattle.lot_sizing.specs.Problem.{item_at, item_count, resource_at, resource_count};
ghost use Rattle.lot_schedule.specs.Records.{IsRow, IsRowOf};

use crate::Slot;
use csv::ByteRecord;
use csv_records::{field, number};
use lot_model::Instance;

// The resource of this name.
fn resource_named(instance: &Instance, name: &[u8]) -> Option<u32>
    ensures found { IfSome result (λ k. (1 ≤ k) × (k ≤ resource_count instance.now)
        × (name.now ≡ (resource_at instance.now k).name)) }
    ensures none { IfNone result ((k : ℕ) → 1 ≤ k → k ≤ resource_count instance.now
        → name.now ≢ (resource_at instance.now k).name) }
{
    for resource in 1..instance.resources() + 1 {
        if name == instance.resource_name(resource).as_bytes() {
            return Some(resource);
        }
    }
    None
}

// The item of this name.
fn item_named(instance: &Instance, name: &[u8]) -> Option<u32>
    ensures found { IfSome result (λ i. (1 ≤ i) × (i ≤ item_count instance.now)
        × (name.now ≡ (item_at instance.now i).name)) }
    ensures none { IfNone result ((i : ℕ) → 1 ≤ i → i ≤ item_count instance.now
        → name.now ≢ (item_at instance.now i).name) }
{
    for item in 1..instance.items() + 1 {
        if name == instance.item_name(item).as_bytes() {
            return Some(item);
        }
    }
    None
}

// The period whose number a text is.
fn period_of(instance: &Instance, text: &[u8]) -> Option<u32>
    ensures found { IfSome result (λ t. (1 ≤ t) × (t ≤ instance.now.periods)
        × (text.now ≡ decimal t)) }
    ensures none { IfNone result ((t : ℕ) → 1 ≤ t → t ≤ instance.now.periods
        → text.now ≢ decimal t) }
{
    let last = instance.periods() as u64;
    let found = number(text)?;
    if found < 1 || found > last {
        return None;
    }
    Some(found as u32)
}

// The slot whose row a record is, if it is one.
pub(crate) fn slot_of(instance: &Instance, row: &ByteRecord) -> Option<Slot>
    ensures found { IfSome result (λ slot. IsRowOf instance.now slot (fields_of row.now)) }
    ensures none { IfNone result (IsRow instance.now (fields_of row.now) → ⊥) }
{
    if row.len() != 5 {
        return None;
    }
    let resource = resource_named(instance, field(row, 1))?;
    let period = period_of(instance, field(row, 2))?;
    let item = item_named(instance, field(row, 3))?;
    let start = number(field(row, 4))?;
    let end = number(field(row, 5))?;
    Some(Slot {
        resource,
        period,
        item,
        start,
        end,
    })
}
