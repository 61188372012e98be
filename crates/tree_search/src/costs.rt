// Costs where none is endless.
ghost use Rattle.std.specs.Prelude.{◌≡◌, ◌↔◌, IsTrue};
ghost use Rattle.tree_search.specs.Costs.{IsBelow, lesser};

/// Whether the first cost is less. None stands for no plan, so that each cost is less than it.
pub fn is_below(cost: Option<u128>, other: Option<u128>) -> bool
    ensures { IsTrue result ↔ IsBelow cost other }
{
    match (cost, other) {
        (None, _) => false,
        (Some(_), None) => true,
        (Some(first), Some(second)) => first < second,
    }
}

// The lesser of two costs.
pub fn least_of(cost: Option<u128>, other: Option<u128>) -> Option<u128>
    ensures { result ≡ lesser cost other }
{
    match (cost, other) {
        (None, _) => other,
        (Some(first), None) => Some(first),
        (Some(first), Some(second)) => Some(first.min(second)),
    }
}
