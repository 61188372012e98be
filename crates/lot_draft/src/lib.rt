//! Models as a reader found them, and the plain rules that they break.
//!
//! Family: models. It stands on `lot_sizing`; `lot_model`, `instance_reader`, `existence`, `report` and `lotplan`
//! stand on it.
//!
//! A `Draft` has the numbers and names of a model as they stand, of any sign and size. `plain_fault`
//! names the first rule of counts, names, lists, numbers and lines that it breaks, by a `ModelFault` with
//! its place; a draft that breaks none of them, and whose ends and lots aren't crossed, is a problem
//! within the limits. `later_fault` names the first component with a backlog cost, then the first crossed
//! ends, then the first crossed lots. `item_named` and `resource_named` give the numbers that names
//! stand for.
#![tactic(auto)]

mod checks;
mod draft;
mod fault;
mod later;
mod named;
mod names;

pub use checks::plain_fault;
pub use draft::{Draft, DraftItem, DraftNeed, DraftRefusal, DraftResource, DraftUse};
pub use fault::{Key, ModelCode, ModelFault, Place};
pub use later::later_fault;
pub use named::{item_named, resource_named};
