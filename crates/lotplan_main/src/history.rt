// What is remembered of a search, for words on it. It changes nothing, and nothing is claimed of it.
use explain::Course;
use search_plugins::Watch;

// How a search went so far.
#[derive(Clone, Copy, Debug, Default)]
pub(crate) struct History {
    nodes: u64,
    bound: Option<u128>,
    bound_since: Option<u64>,
    plan: Option<u128>,
    plan_since: Option<u64>,
    is_over: bool,
}

impl History {
    // One more node has a leaf, and the best plan so far costs so much.
    fn node(&mut self, best: Option<u128>) {
        self.nodes = self.nodes.saturating_add(1);
        if best.is_some() && self.plan != best {
            self.plan = best;
            self.plan_since = Some(self.nodes);
        }
    }

    // No plan costs less than the bound, before a pass over the tree.
    fn pass(&mut self, bound: Option<u128>) {
        if bound.is_some() && self.bound != bound {
            self.bound = bound;
            self.bound_since = Some(self.nodes.max(1));
        }
    }

    // How the search went, where there was one.
    pub(crate) fn course(&self) -> Option<Course> {
        if self.nodes == 0 {
            return None;
        }
        Some(Course {
            nodes: self.nodes,
            bound_since: self.bound_since,
            plan_since: self.plan_since,
            is_over: self.is_over,
        })
    }
}

// Two who watch a search: one tells how far it is, and one remembers it.
#[derive(Drop)]
pub(crate) struct Watched<W> {
    pub(crate) teller: W,
    pub(crate) history: History,
}

impl<W: Watch> Watch for Watched<W> {
    ghost may_stop = { λ w. W.may_stop w.teller };

    fn node(&mut self, depth: usize, says: Option<u128>, best: Option<u128>) {
        self.history.node(best);
        self.teller.node(depth, says, best);
    }

    fn pass(&mut self, bound: Option<u128>, best: Option<u128>) {
        self.history.pass(bound);
        self.teller.pass(bound, best);
    }

    fn stops(&mut self) -> bool {
        let is_over = self.teller.stops();
        self.history.is_over = is_over;
        is_over
    }
}
