// Laws about explosions, each the contract of a function that does nothing.
ghost use Rattle.echelon.specs.Laws.{ExplosionsAreOne};

/// Two explosions of an instance have the same weights.
pub fn explosions_are_one()
    ensures { ExplosionsAreOne }
{}
