// A fault of a draft as its document has it.
ghost use Rattle.std.specs.Prelude.{◌≡◌, ◌-◌, is_some, option_and_then, option_map};
ghost use Rattle.toml.specs.Data.{as_integer};
ghost use Rattle.toml.specs.View.{table_view};
ghost use Rattle.instance_reader.specs.Document.{value_at};
ghost use Rattle.instance_reader.specs.Model.{is_single, table_at, table_of, fault_in};

use crate::document::value_at;
use lot_model::{Key, ModelFault, Place};
use toml::Table;

// Table n of the array under a key, counted from 1.
fn table_at<'a>(table: &'a Table, key: Key, n: u32) -> Option<&'a Table>
    ensures { option_map (λ t. table_view t.now) result
        ≡ table_at key n (table_view table.entry.now) }
{
    match value_at(table, key) {
        Some(list) => match list.get(n.saturating_sub(1) as usize) {
            Some(value) => value.as_table(),
            None => None,
        },
        None => None,
    }
}

// The table of a resource or an item.
fn table_of<'a>(table: &'a Table, place: Place) -> Option<&'a Table>
    ensures { option_map (λ t. table_view t.now) result
        ≡ table_of place (table_view table.entry.now) }
{
    match place {
        Place::Resource(k) => table_at(table, Key::Resource, k),
        Place::Item(i) => table_at(table, Key::Item, i),
        _ => None,
    }
}

// Whether one number stands under a key.
fn is_number(table: &Table, key: Key) -> bool
    ensures { result ≡ is_some (option_and_then as_integer (value_at key (table_view table.now))) }
{
    match value_at(table, key) {
        Some(value) => value.as_integer().is_some(),
        None => false,
    }
}

// Whether one number stands there for a whole list.
fn is_single(table: &Table, place: Place, key: Option<Key>) -> bool
    ensures { result ≡ is_single (table_view table.now) place key }
{
    match (key, table_of(table, place)) {
        (Some(key), Some(one)) => is_number(one, key),
        _ => false,
    }
}

/// A fault as its document has it: that of a number which stands for a whole list has no period.
pub fn fault_in(table: &Table, fault: ModelFault) -> ModelFault
    ensures { result ≡ fault_in (table_view table.now) fault }
{
    if is_single(table, fault.place, fault.key) {
        ModelFault {
            code: fault.code,
            place: fault.place,
            key: fault.key,
            period: None,
        }
    } else {
        fault
    }
}
