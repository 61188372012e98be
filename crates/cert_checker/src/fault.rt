// Why a certificate is refused.
ghost use Rattle.std.specs.Prelude.{◌≡◌};

use lin_rows::Column;
use plan_rules::Broken;
use std::alloc::{AllocError, AllocFailed};
use thiserror::Error;

/// Why a certificate is refused.
#[derive(Clone, Copy, Debug, PartialEq, Eq, Error)]
pub enum Why {
    /// A row, an item or a period doesn't exist, a list has another length or a number past its limit, a cut
    /// names itself, a later cut or a bound of a path, or a branch doesn't split a range of a quantity or a
    /// setup.
    #[error("something doesn't exist or is out of range")]
    Range,
    /// A row that isn't equal is taken a negative number of times.
    #[error("an inequality is taken a negative number of times")]
    Sign,
    /// The sum of a column is too large, or what late groups and late quantities charge on a backlog is more than the
    /// sum leaves of its cost. It is the first such column.
    #[error("the sum of column {0}, or what is charged on it, is too large")]
    Column(Column),
    /// A leaf says less than is claimed, in money; a sum that refutes nothing says 0.
    #[error("the leaf says {says}, which is less than is claimed")]
    Short {
        /// What the leaf says.
        says: u128,
    },
    /// The path leaves a quantity or a setup more or fewer values than one.
    #[error("a quantity or a setup hasn't one value")]
    NotPoint,
    /// The potentials of a block cut rise over a block by more than the block costs. It is the first such block by
    /// its first position, then by its last one, then by its server.
    #[error("potentials rise by more than the block {first} to {last} costs from period {server}")]
    Block {
        /// The first position.
        first: u32,
        /// The last position.
        last: u32,
        /// The period in which the block's units are made.
        server: u32,
    },
    /// The absolute values of what is added up of one column, or of the right sides, reach 2^127.
    #[error("the numbers reach 2^127")]
    TooLarge,
    /// The plan that goes with an optimal cost breaks a rule.
    #[error("the plan is not feasible: {0}")]
    Plan(Broken),
    /// The plan costs another amount than is claimed, both in money.
    #[error("the plan costs {plan}, and {claim} is claimed")]
    Costs {
        /// What the plan costs.
        plan: u128,
        /// What is claimed.
        claim: u128,
    },
    /// There is no plan, and an optimal cost is claimed.
    #[error("there is no plan")]
    PlanMissing,
    /// A cut is over the echelon of an item that isn't lead-free.
    #[error("the item of the cut isn't lead-free")]
    Lead,
    /// To find the number of a group is too much work: a price of it, its table, its periods or what it costs to buy
    /// all that is asked of it are past the limits of `reduced_groups`.
    #[error("the work of the group is past the limits")]
    Work,
}

/// Where and why a certificate is refused.
#[derive(Clone, Copy, Debug, PartialEq, Eq, Error)]
#[error("line {line}: {why}")]
pub struct Rejected {
    /// The line of the certificate's text, counted from 1. That of the claim is 2.
    pub line: u64,
    /// Why.
    pub why: Why,
}

/// Why a certificate, a cut or a leaf isn't taken.
#[derive(Clone, Copy, Debug, PartialEq, Eq, Error)]
pub enum CheckFault {
    /// It is refused.
    #[error("{0}")]
    Rejected(Rejected),
    /// Memory ran out.
    #[error("out of memory")]
    Memory,
}

impl From<AllocError> for CheckFault {
    ghost use Rattle.cert_checker.specs.declared.fault.CheckFault.TheVariants.{Memory};

    ghost from_gives = { λ _ e. e ≡ Memory };

    fn from(_: AllocError) -> CheckFault {
        CheckFault::Memory
    }
}

impl<T: Drop> From<AllocFailed<T>> for CheckFault {
    ghost use Rattle.std.specs.Prelude.{◌≡◌};
    ghost use Rattle.cert_checker.specs.declared.fault.CheckFault.TheVariants.{Memory};

    ghost from_gives = { λ _ e. e ≡ Memory };

    fn from(_: AllocFailed<T>) -> CheckFault {
        CheckFault::Memory
    }
}
