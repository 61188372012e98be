// The numbers that names stand for.
ghost use Rattle.std.specs.Prelude.{◌≡◌, ◌≤◌, IfSome, length, map, unwrap_or};
ghost use Rattle.lot_sizing.specs.declared.limits.TheConstants.{MAX_ITEMS, MAX_RESOURCES};
ghost use Rattle.lot_draft.specs.Raw.{raw_item, raw_resource};
ghost use Rattle.lot_draft.specs.Refusals.{item_names, resource_names};
ghost use Rattle.lot_draft.specs.Meaning.{number_named};

use crate::{DraftItem, DraftResource};

/// The number of the item of a name, from 1 on.
pub fn item_named(items: &[DraftItem], name: &str) -> Option<u32>
    requires few { length items.now ≤ MAX_ITEMS }
    ensures number { unwrap_or result 0
        ≡ number_named (item_names (map raw_item items.now)) name.now }
    ensures some { IfSome result (λ number. 1 ≤ number) }
{
    for at in 0..items.len() {
        let item = &items[at];
        if item.name.as_str() == name {
            return Some(at as u32 + 1);
        }
    }
    None
}

/// The number of the resource of a name, from 1 on.
pub fn resource_named(resources: &[DraftResource], name: &str) -> Option<u32>
    requires few { length resources.now ≤ MAX_RESOURCES }
    ensures number { unwrap_or result 0
        ≡ number_named (resource_names (map raw_resource resources.now)) name.now }
    ensures some { IfSome result (λ number. 1 ≤ number) }
{
    for at in 0..resources.len() {
        let resource = &resources[at];
        if resource.name.as_str() == name {
            return Some(at as u32 + 1);
        }
    }
    None
}
