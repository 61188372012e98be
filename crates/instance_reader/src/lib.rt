//! Models as TOML documents (TOML 1.1).
//!
//! Family: models. It stands on `lot_draft`, `lot_model` and `toml`; `existence` and the commands stand on it.
//!
//! `read_instance` gives the instance that bytes mean, or the first rule that they break. A document is
//! read with `toml`, and its table key by key: what is absent, unknown or of another kind is a fault. What
//! is read makes a draft, and `lot_model` makes the instance of it.
#![tactic(auto)]

ghost use Rattle.std.specs.Prelude.{◌≡◌, Ok, IfOk, IfErr};
ghost use Rattle.instance_reader.specs.Model.{BytesMean, FirstVersionMeans, IsFirstVersionRefusal, IsRefusal, IsRefusalUpTo, MeanUpTo};

mod document;
mod document_fault;
mod fault;
mod laws;
mod reading;
mod tables;
mod versions;
mod writing;

pub use fault::ReadModelFault;
pub use laws::{bytes_mean_one_thing, model_texts_are_read};
use lot_model::{DraftRefusal, Instance};
use std::alloc::Global;
pub use versions::{FIRST_VERSION, FIRST_VERSION_PERIODS, NEWEST_VERSION};
pub use writing::{put, put_some, write_model};

/// The instance that the bytes mean, or the first rule that they break.
///
/// It takes time in the length of the bytes, and as `Instance::from_draft` does.
pub fn read_instance(alloc: Global, bytes: &[u8]) -> Result<Instance, ReadModelFault>
    ensures ok { IfOk result (λ instance. BytesMean bytes.now (Ok instance)) }
    ensures refused { IfErr result (IsRefusal bytes.now) }
{
    read_up_to(alloc, bytes, NEWEST_VERSION)
}

/// The same of bytes that must be a model of the first version: another version is refused.
pub fn read_first_version(alloc: Global, bytes: &[u8]) -> Result<Instance, ReadModelFault>
    ensures ok { IfOk result (λ instance. FirstVersionMeans bytes.now (Ok instance)) }
    ensures refused { IfErr result (IsFirstVersionRefusal bytes.now) }
{
    read_up_to(alloc, bytes, FIRST_VERSION)
}

// The instance of a model whose version is at most the newest.
fn read_up_to(alloc: Global, bytes: &[u8], newest: u32) -> Result<Instance, ReadModelFault>
    ensures ok { IfOk result (λ instance. MeanUpTo newest bytes.now (Ok instance)) }
    ensures refused { IfErr result (IsRefusalUpTo newest bytes.now) }
{
    let table = document::table_of(alloc, bytes)?;
    let draft = tables::model(alloc, &table, newest)?;
    match Instance::from_draft(alloc, draft) {
        Ok(instance) => Ok(instance),
        Err(DraftRefusal::Refused { fault, draft: _ }) => {
            Err(ReadModelFault::Refused(document_fault::fault_in(&table, fault)))
        }
        Err(DraftRefusal::Memory(_)) => Err(ReadModelFault::Memory),
    }
}
