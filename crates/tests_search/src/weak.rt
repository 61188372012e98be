// A guide that shows nothing before a point is reached, to try the search with.
ghost use Rattle.std.specs.Prelude.{◌≡◌, ◌+◌, ◌*◌, ℕ, true, false, refl};
ghost use Rattle.tree_search.specs.Ranges.{AreOrdered, IsPoint};
ghost use Rattle.tree_search.specs.Costs.{IsAtMost, IsBelow};
ghost use Rattle.tests_search.specs.Weak.{IsWeakCost, number_of, weak_rules};

use cert_lines::Leaf;
use lin_rows::Column;
use std::alloc::{AllocError, Global};
use tree_search::{Guide, Node, Proposal, Split, middle, open_place};

/// A guide under which each choice costs 1, and no leaf says so but at a point.
#[derive(Drop)]
pub struct Weak {
    /// What a leaf says at least once evidence was asked for.
    pub evidence: u128,
    /// Whether it ends the search as soon as it is asked.
    pub is_ending: bool,
}

// A column with this number.
fn column_at(place: usize) -> Column
    ensures { number_of result ≡ place }
{
    Column::X {
        item: (place / 4_294_967_296) as u32,
        period: (place % 4_294_967_296) as u32,
    }
}

// What this guide says of a node.
fn weakly_said(node: &Node, state: &mut Option<u128>) -> Proposal
    requires ordered { AreOrdered node.now.ranges.items }
    requires state { IsWeakCost state.old }
    ensures state { IsWeakCost state.new }
    ensures kept { IsAtMost state.new state.old }
    ensures examined { result.examined ≡ false }
    ensures point { IsBelow result.says state.new → IsPoint node.now.ranges.items → ⊥ }
{
    if open_place(&node.ranges).is_some() {
        return Proposal {
            leaf: Leaf::Point,
            says: Some(0),
            examined: false,
            note: None,
        };
    }
    *state = Some(1);
    Proposal {
        leaf: Leaf::Point,
        says: Some(1),
        examined: false,
        note: None,
    }
}

impl Guide<Option<u128>> for Weak {
    ghost rules = { λ guide. weak_rules };

    ghost IsNode = { λ guide rs path. Unit {0} };

    ghost Grows = { λ a b. Unit {0} };

    ghost Holds = { λ guide state rs path proposal. Unit {0} };

    ghost IsHeir = { λ guide state rs path proposal. Unit {0} };

    ghost IsEvident = { λ guide rs path proposal. proposal.examined ≡ true };

    ghost IsState = { λ guide state. IsWeakCost state };

    ghost cost = { λ state. state };

    ghost may_stop = { λ guide state. guide.is_ending };

    ghost sides = { λ guide most rs path c at node split. tt };

    ghost same = { λ a. tt };

    ghost grows_on = { λ a b c first second. tt };

    ghost may_on = { λ guide a b grows. refl };

    ghost stays = { λ guide a b rs path p grows holds. tt };

    ghost heirs = { λ guide state most rs path c at p holds split. tt };

    fn best(&self, state: &Option<u128>) -> Option<u128> {
        *state
    }

    fn start(
        &self,
        _: Global,
        node: &Node,
        state: &mut Option<u128>,
    ) -> Result<Proposal, AllocError> {
        Ok(weakly_said(node, state))
    }

    fn propose(
        &self,
        _: Global,
        node: &Node,
        _: &Proposal,
        state: &mut Option<u128>,
    ) -> Result<Proposal, AllocError> {
        Ok(weakly_said(node, state))
    }

    fn branch(&self, node: &Node, _: &Proposal, _: &Option<u128>) -> Split {
        match open_place(&node.ranges) {
            Some(place) => Split {
                column: column_at(place),
                place,
                at: middle(&node.ranges, place),
            },
            None => unreachable!(),
        }
    }

    fn ask(
        &self,
        _: Global,
        _: &Node,
        proposal: Proposal,
        _: &mut Option<u128>,
    ) -> Result<Proposal, AllocError> {
        let says = match proposal.says {
            Some(number) => Some(number.max(self.evidence)),
            None => None,
        };
        Ok(Proposal {
            leaf: proposal.leaf,
            says,
            examined: true,
            note: proposal.note,
        })
    }

    fn stops(&self, _: Option<u128>, _: &mut Option<u128>) -> bool {
        self.is_ending
    }
}
