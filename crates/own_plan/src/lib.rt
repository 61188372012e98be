//! The own-period plan: every lot is made in the period that asks for it, items before their components.
//!
//! `own_period_plan` answers it where it is feasible, and None exactly where it isn't or the instance has lead times or bounds on
//! lots. `own_period_is_one` is the law that there is but one. What else builds plans may use the two steps of it:
//! `fill_own_lots`, which puts the lots of all items in a grid, feasible or not, and `needed_by`, which says how much must have
//! been made of an item by a period.
//!
//! Family: search. It stands on `lot_model` and on `plan_rules`, which completes the plan and says what it costs; `incumbent`,
//! `branching`, `report`, `lotplan` and, of plugins, all that make plans stand on it.
#![tactic(auto)]

mod laws;
mod own_period;

pub use laws::own_period_is_one;
pub use own_period::{fill_own_lots, needed_by, own_period_plan};
