// Plans before the first node, by averages of rounds, and by the setups that are chosen.
ghost use Rattle.std.specs.Prelude.{OnOk};

use crate::effort::Effort;
use crate::scope::Scope;
use crate::starting::try_at_start;
use crate::trying::try_average;
use heur_build::built_plan;
use incumbent::keep_within;
use lot_model::Instance;
use node_domains::least_grid;
use plan_rules::Planned;
use price_rounds::Average;
use search_plugins::{Heuristic, Space};
use std::alloc::{AllocError, Global};
use tree_search::Range;
use work_clock::Deadline;

/// Plans without a search, with the setups that rounds of prices want, and with those that are chosen.
#[derive(Clone, Copy)]
pub struct Plans {
    /// When work on plans is to end, where the search ends by a clock.
    pub until: Deadline,
}

impl Heuristic<Average> for Plans {
    type State = Effort;

    fn begin(&self, alloc: Global, _instance: &Instance) -> Result<Effort, AllocError> {
        Ok(Effort::new(alloc))
    }

    fn at_start(
        &self,
        alloc: Global,
        space: Space<'_>,
        _state: &mut Effort,
        best: &mut Option<Planned>,
    ) -> Result<(), AllocError> {
        let scope = Scope::of(space, self.until);
        try_at_start(alloc, &scope, best)
    }

    fn by_hint(
        &self,
        alloc: Global,
        space: Space<'_>,
        hint: &Average,
        state: &mut Effort,
        best: &mut Option<Planned>,
    ) -> Result<(), AllocError> {
        let scope = Scope::of(space, self.until);
        try_average(alloc, &scope, hint, state, best)
    }

    fn at_node(
        &self,
        alloc: Global,
        space: Space<'_>,
        left: &[Range],
        _state: &mut Effort,
        best: &mut Option<Planned>,
    ) -> Result<(), AllocError> {
        let Space { instance, ranges } = space;
        let cells = instance.items() as usize * instance.periods() as usize;
        let setup = least_grid(alloc, instance, left, cells)?;
        let built = built_plan(alloc, instance, &setup)?;
        keep_within(instance, ranges, best, built);
        Ok(())
    }
}
