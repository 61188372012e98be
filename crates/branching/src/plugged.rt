// What a search is given by plugins, and their states.
use crate::guiding::Model;
use crate::knowing::Known;

/// What is plugged into a search.
#[derive(Drop)]
pub struct Plugins<'a, P, H> {
    /// What proposes leaves and branches.
    pub proposer: &'a P,
    /// What proposes plans.
    pub heuristic: &'a H,
}

/// The immutable data of a search, with the plugins that propose leaves and plans.
#[derive(Drop)]
pub(crate) struct Guided<'a, P, H> {
    /// The model.
    pub(crate) model: Model<'a>,
    /// What proposes leaves and branches.
    pub(crate) proposer: &'a P,
    /// What proposes plans.
    pub(crate) heuristic: &'a H,
}

/// The state of a search, with the states of the plugins that propose. Nothing is claimed of those.
#[derive(Drop)]
pub(crate) struct State<N, E> {
    /// What is known.
    pub(crate) known: Known,
    /// What the proposer remembers.
    pub(crate) notes: N,
    /// What the heuristic remembers.
    pub(crate) effort: E,
}

/// The state of a search, with the watcher that is told of it and may end it.
#[derive(Drop)]
pub(crate) struct Watched<N, E, W> {
    /// What is known, and what is remembered.
    pub(crate) work: State<N, E>,
    /// What is told of nodes and passes.
    pub(crate) watch: W,
    /// Whether it has ended the search.
    pub(crate) is_ended: bool,
}
