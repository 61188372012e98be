// Laws about what items cost apart, each the contract of a function that does nothing.
ghost use Rattle.item_bound.specs.Apart.{ApartIsOne};

/// What the items of a problem cost apart is one amount.
pub fn apart_is_one()
    ensures { ApartIsOne }
{}
