// The table of a document, and what stands under its keys.
ghost use Rattle.std.specs.Prelude.{◌≡◌, map, Some, None, IfOk, IfErr, option_map};
ghost use Rattle.toml.specs.View.{table_view, view};
ghost use Rattle.lot_draft.specs.Refusals.{is_among};
ghost use Rattle.instance_reader.specs.Document.{document_of, has_only, value_at};
ghost use Rattle.instance_reader.specs.Model.{not_toml, IsTableRefusal};

use crate::ReadModelFault;
use lot_model::{Key, ModelCode, ModelFault, Place};
use std::alloc::Global;
use toml::{Table, Value};

/// The table of a document.
pub fn table_of(alloc: Global, bytes: &[u8]) -> Result<Table, ReadModelFault>
    ensures ok { IfOk result (λ t. document_of bytes.now ≡ Some (table_view t)) }
    ensures refused { IfErr result (IsTableRefusal bytes.now) }
{
    match toml::table_from_slice(alloc, bytes) {
        Ok(table) => Ok(table),
        Err(e) => {
            if e.is_memory() {
                Err(ReadModelFault::Memory)
            } else {
                Err(ReadModelFault::Refused(not_toml()))
            }
        }
    }
}

// The refusal of what is no document.
fn not_toml() -> ModelFault
    ensures { result ≡ not_toml }
{
    ModelFault {
        code: ModelCode::NotToml,
        place: Place::Root,
        key: None,
        period: None,
    }
}

// Whether a key is one of these.
fn is_known(keys: &[&str], key: &str) -> bool
    ensures { result ≡ is_among (map (λ one. one.now) keys.now) key.now }
{
    (&*keys).contains(&key)
}

/// Whether each key of a table is one of these.
pub fn has_only(table: &Table, keys: &[&str]) -> bool
    ensures { result ≡ has_only (map (λ one. one.now) keys.now) (table_view table.now) }
{
    'keys: for (key, _value) in table.iter() {
        if !is_known(keys, key.as_str()) {
            return false;
        }
    }
    true
}

/// The value under a key, if the key is there.
pub fn value_at<'a>(table: &'a Table, key: Key) -> Option<&'a Value>
    ensures { option_map (λ value. view value.now) result
        ≡ value_at key (table_view table.entry.now) }
{
    table.get(key.name())
}
