//! Problems that the program plans, each within its limits.
//!
//! Family: models. It stands on `lot_sizing`, `lot_draft` and `bill`; all that read, judge or plan an
//! instance stand on it.
//!
//! A `Draft` is what a reader found, as it stands. `Instance::from_draft` makes an `Instance` of it, or
//! says by a `ModelFault` which rule it breaks first. An `Instance` is seen by contracts as the problem of
//! the definitions. It keeps the limits, its names differ, its lines name things once, its components have
//! no backlog cost, its items have ranks along the bill, and no largest total and no weight is past the
//! bound (`an_instance_breaks_no_rule`). Written out as a model again, it means itself
//! (`written_out_means_itself`).
#![tactic(auto)]

mod building;
mod data;
mod instance;
mod laws;
mod making;
mod totals;

pub use instance::{Instance, is_plain, is_uncoupled};
pub use laws::{
    a_model_means_one_thing, a_model_means_something, an_instance_breaks_no_rule,
    written_out_means_itself,
};
pub use lot_draft::{
    Draft, DraftItem, DraftNeed, DraftRefusal, DraftResource, DraftUse, Key, ModelCode, ModelFault,
    Place,
};
pub use lot_sizing::{Need, Usage};
