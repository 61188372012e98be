// Laws about the judgement of plans, each the contract of a function that does nothing.
ghost use Rattle.plan_rules.specs.Laws.{JudgementIsOne};

/// What `judge` answers of a plan is one thing: two answers for the same cells are the same, refusals
/// with their places and numbers included.
pub fn judgement_is_one()
    ensures { JudgementIsOne }
{}
