// The certificate that an item has no room for what is left of its opening stock.
ghost use Rattle.std.specs.Prelude.{◌≡◌, ◌≤◌, IfOk};
ghost use Rattle.lot_sizing.specs.declared.limits.TheConstants.{MAX_PERIODS};
ghost use Rattle.certificate.specs.Shapes.{shape_of};
ghost use Rattle.uncoupled.specs.NoRoom.{NoRoomIsCertified, no_room_parts, no_room_shape};

use certificate::{Certificate, Claim, FIRST_CERT_VERSION, Leaf, Part, Tree};
use lin_rows::RowName;
use lot_model::Instance;
use std::alloc::{AllocError, Global};

/// The certificate that an item of an uncoupled problem has no room is accepted, and its sums stay small: one leaf
/// by Farkas' lemma, which subtracts the item's balance of each period and adds its largest end stock. Stocks and
/// backlogs cancel, what is made is taken -1 times, and the right side is what is left of the opening stock past the
/// largest end stock.
pub fn no_room_is_certified()
    ensures { NoRoomIsCertified }
{}

// The balances of an item, each subtracted, and its largest end stock.
fn refuting_parts(alloc: Global, periods: u32, item: u32) -> Result<Vec<Part>, AllocError>
    requires { periods ≤ MAX_PERIODS }
    ensures { IfOk result (λ parts. parts.items ≡ no_room_parts periods item) }
{
    let mut parts = Vec::with_capacity(alloc, periods as usize + 1)?;
    for period in 1..periods + 1 {
        parts.push(Part {
            row: RowName::Balance(item, period),
            times: -1,
        })?;
    }
    parts.push(Part {
        row: RowName::EndMax(item),
        times: 1,
    })?;
    Ok(parts)
}

/// The certificate that no plan is feasible, since this item has no room.
pub(crate) fn no_room_certificate(
    alloc: Global,
    instance: &Instance,
    item: u32,
) -> Result<Certificate, AllocError>
    ensures { IfOk result (λ made. shape_of made ≡ no_room_shape instance.now item) }
{
    let parts = refuting_parts(alloc, instance.periods(), item)?;
    Ok(Certificate {
        version: FIRST_CERT_VERSION,
        claim: Claim::Infeasible,
        cuts: Vec::new(alloc),
        tree: Tree::Leaf(Leaf::Farkas { parts }),
    })
}
