//! Laws of existence on groups: each has a number or no choice, and each list of groups is judged.
//!
//! Family: proofs. It stands on `reduced_groups`, whose definitions it speaks of, and on `existence`; `answers_exist` stands on
//! it. It has no code that runs.
//!
//! The number of a group is the least cost of choices without end. Quantities past what is asked for can be cut off, and what falls
//! short of them need be no more than it must, so those that matter can be gone through.
#![tactic(auto)]

ghost use Rattle.group_existence.specs.Laws.{GroupsAreJudged, NumbersExist, WorkIsJudged};

/// At any prices groups have numbers, or one of them has no choice.
pub fn numbers_exist()
    ensures { NumbersExist }
{}

/// Groups lie apart, or something is wrong with them first (`apart`); and the work of all is within the limits, or that of a first one
/// isn't (`work`).
pub fn groups_are_judged()
    ensures apart { GroupsAreJudged }
    ensures work { WorkIsJudged }
{}
