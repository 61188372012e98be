// What the ways to find plans are told of a search.
ghost use Rattle.std.specs.Prelude.{◌≡◌};

use crate::shares::limit;
use lot_model::Instance;
use node_domains::Ranges;
use plan_rules::Planned;
use search_plugins::Space;
use work_clock::Deadline;

/// The model, the ranges within which plans are kept, and the time to end.
#[derive(Clone, Copy)]
pub(crate) struct Scope<'a> {
    /// The model.
    pub(crate) instance: &'a Instance,
    /// The ranges within which plans are kept, with a number for each item and period of the model.
    pub(crate) ranges: &'a Ranges,
    /// When work on plans is to end, where the search ends by a clock.
    pub(crate) until: Deadline,
}

impl<'a> Scope<'a> {
    /// This space, with the time to end.
    pub(crate) fn of(space: Space<'a>, until: Deadline) -> Scope<'a>
        ensures instance { result.instance.now ≡ space.entry.instance.now }
        ensures ranges { result.ranges.now ≡ space.entry.ranges.now }
    {
        let Space { instance, ranges } = space;
        Scope {
            instance,
            ranges,
            until,
        }
    }

    /// The same with the time for plans before the first node: a part of it where there is a plan, and else all of it.
    pub(crate) fn before_first_node(&self, best: &Option<Planned>) -> Scope<'a>
        ensures instance { result.instance.now ≡ self.now.instance.now }
        ensures ranges { result.ranges.now ≡ self.now.ranges.now }
    {
        Scope {
            instance: self.instance,
            ranges: self.ranges,
            until: limit(self.until, best),
        }
    }
}
