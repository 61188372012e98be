// A model as a reader found it, with numbers of any sign and size and names of any kind.
use crate::ModelFault;
use thiserror::Error;

/// A model as it was read. Lists have an entry for each period.
#[derive(Debug, Drop)]
pub struct Draft {
    /// The number of periods.
    pub periods: i64,
    /// The resources, in order.
    pub resources: Vec<DraftResource>,
    /// The items, in order.
    pub items: Vec<DraftItem>,
}

/// A resource.
#[derive(Debug, Drop)]
pub struct DraftResource {
    /// Its name.
    pub name: String,
    /// Its time in each period.
    pub capacity: Vec<i64>,
}

/// An item. Costs are in money for each unit, or for each setup.
#[derive(Debug, Drop)]
pub struct DraftItem {
    /// Its name.
    pub name: String,
    /// Units asked for in each period.
    pub demand: Vec<i64>,
    /// The cost of making one unit, in each period.
    pub unit_cost: Vec<i64>,
    /// The cost of a setup, in each period.
    pub setup_cost: Vec<i64>,
    /// The cost of one unit in stock at the end of each period.
    pub hold_cost: Vec<i64>,
    /// The cost of one unit owed at the end of each period; none where no backlog is allowed.
    pub backlog_cost: Option<Vec<i64>>,
    /// Units in stock before the first period.
    pub opening: i64,
    /// The least stock at the end of the last period.
    pub end_min: i64,
    /// The largest stock at the end of the last period; where it is left out, the least one and the
    /// opening stock together.
    pub end_max: Option<i64>,
    /// The periods from the start of a lot to its arrival.
    pub lead: i64,
    /// The least quantity of a setup.
    pub min_lot: i64,
    /// The largest quantity of a period; none where there is no bound.
    pub max_lot: Option<i64>,
    /// What goes into one unit.
    pub needs: Vec<DraftNeed>,
    /// The resources that it takes time on.
    pub uses: Vec<DraftUse>,
}

/// A component by its name, and how many units of it go into one unit.
#[derive(Debug, Drop)]
pub struct DraftNeed {
    /// The component's name.
    pub item: String,
    /// Units of it in one unit.
    pub quantity: i64,
}

/// A resource by its name, and the time taken on it.
#[derive(Debug, Drop)]
pub struct DraftUse {
    /// The resource's name.
    pub resource: String,
    /// Time of one unit.
    pub unit: i64,
    /// Time of a setup.
    pub setup: i64,
}

/// Why a draft is no instance. The draft comes back as it was.
#[derive(Debug, Drop, Error)]
pub enum DraftRefusal {
    /// The draft breaks a rule.
    #[error("{fault}")]
    Refused {
        /// The rule, and where it is broken.
        fault: ModelFault,
        /// The draft.
        draft: Draft,
    },
    /// Memory ran out.
    #[error("out of memory")]
    Memory(Draft),
}
