// A law about drafts, the contract of a function that does nothing.
ghost use Rattle.replan.specs.Laws.{CapsChangeNothing};

/// A number of a draft that is past the limit of `MAX_AMOUNT` may be written as any other that is: the same rule is
/// broken first, at the same place.
pub fn caps_change_nothing()
    ensures { CapsChangeNothing }
{}
