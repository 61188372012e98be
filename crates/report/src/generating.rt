// The text of a model that is drawn from a seed.
ghost use Rattle.std.specs.Prelude.{◌≡◌, ◌↔◌, true, Some, Ok, Err, IfOk, OnOk};
ghost use Rattle.instance_reader.specs.Document.{document_of};
ghost use Rattle.instance_reader.specs.Model.{BytesMean};
ghost use Rattle.own_plan.specs.OwnPeriod.{HasOwnPeriod};
ghost use Rattle.report.specs.Generated.{IsModelSize, generated, generated_table};

use crate::generating_tables::model;
use instance_reader::FIRST_VERSION_PERIODS;
use lot_model::written_out_means_itself;
use lot_sizing::limits::MAX_ITEMS;
use std::alloc::{AllocError, Global};
use thiserror::Error;

/// Why no model was generated.
#[derive(Clone, Copy, Debug, PartialEq, Eq, Error)]
pub enum GenFault {
    /// There are no items, more than `MAX_ITEMS`, no periods or more than `FIRST_VERSION_PERIODS`.
    #[error("not from 1 to {items} items and 1 to {periods} periods", items = MAX_ITEMS, periods = FIRST_VERSION_PERIODS)]
    Range,
    /// Memory ran out.
    #[error("out of memory")]
    Memory,
}

impl From<AllocError> for GenFault {
    ghost use Rattle.std.specs.Prelude.{◌≡◌};
    ghost use Rattle.report.specs.declared.generating.GenFault.TheVariants.{Memory};

    ghost from_gives = { λ _ e. e ≡ Memory };

    fn from(_: AllocError) -> GenFault {
        GenFault::Memory
    }
}

// Whether a model may have so many items and periods.
fn is_model_size(items: u32, periods: u32) -> bool
    ensures { (result ≡ true) ↔ IsModelSize items periods }
{
    1 <= items && items <= MAX_ITEMS && 1 <= periods && periods <= FIRST_VERSION_PERIODS
}

/// The text of a model of the first version with so many items and periods, as a TOML document. Its numbers
/// are drawn from the seed, item by item; the same seed and sizes give the same model.
///
/// Not coupled: a demand is from 0 to 99, a setup cost from 100 to 299 and a hold cost from 1 to 3; items 1,
/// 3, 5 .. have a backlog cost from 2 to 6. Coupled: items stand in groups of three, of which the first has
/// demands from 0 to 49 and the others from 0 to 9; each item of a group needs one unit of the next one, and
/// all take time on one resource, 1 for a unit and 5 for a setup, with 80 for each item in each period.
///
/// The text is a valid model, whose own-period plan is feasible. `Range` comes exactly where there aren't
/// from 1 to `MAX_ITEMS` items and from 1 to `FIRST_VERSION_PERIODS` periods. It takes time and memory in the
/// number of items times that of periods.
pub fn generate(
    alloc: Global,
    seed: u64,
    items: u32,
    periods: u32,
    coupled: bool,
) -> Result<Vec<u8>, GenFault>
    ensures table { IfOk result (λ text. document_of text.items
        ≡ Some (generated_table seed items periods coupled)) }
    ensures model { IfOk result (λ text.
        BytesMean text.items (Ok (generated seed items periods coupled))) }
    ensures feasible { OnOk result (HasOwnPeriod (generated seed items periods coupled)) }
    ensures range { (result ≡ Err GenFault.Range) ↔ (IsModelSize items periods → ⊥) }
{
    if !is_model_size(items, periods) {
        return Err(GenFault::Range);
    }
    written_out_means_itself();
    let table = model(alloc, seed, items, periods, coupled)?;
    match toml::table_to_string(alloc, &table) {
        Ok(text) => Ok(text.into_bytes()),
        Err(_) => Err(GenFault::Memory),
    }
}
