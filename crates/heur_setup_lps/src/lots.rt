// Lots of a point of a program.
ghost use Rattle.std.specs.Prelude.{◌≡◌, ◌≤◌, IfOk, IfSome};
ghost use Rattle.lot_sizing.specs.Problem.{item_count};
ghost use Rattle.plan_rules.specs.Cells.{Fits};
ghost use Rattle.plan_rules.specs.Rows.{IfFound};
ghost use Rattle.own_plan.specs.Made.{IsMade};
ghost use Rattle.heur_setup_lps.specs.Within.{IsSetUpWithin, SetsUpWithin};

use crate::columns::{Role, role_of};
use crate::program::Solved;
use frac128::Frac;
use lin_rows::Column;
use lot_model::Instance;
use plan_rules::{Grid, Planned, complete_at_cost};
use std::alloc::{AllocError, Global};

// Lots, and their setups.
#[derive(Drop)]
struct Lots {
    make: Grid,
    setup: Grid,
}

/// The value of a column at a point.
pub(crate) fn value_at(instance: &Instance, solved: &Solved, column: Column) -> Frac {
    match role_of(instance, &solved.roles, column) {
        Role::Column(number) => match solved.point.get((number as usize).wrapping_sub(1)) {
            Some(value) => *value,
            None => Frac::from(0i64),
        },
        Role::Value(value) => Frac::whole(value).unwrap_or(Frac::from(0i64)),
    }
}

// Puts a lot of an item in a period where there may be a setup, with the setup if there is some of it.
fn put_lot(_instance: &Instance, high: &Grid, item: u32, period: u32, lot: u64, lots: &mut Lots)
    requires high_fits { Fits _instance.now high.now }
    requires make { Fits _instance.now lots.old.make }
    requires setup { Fits _instance.now lots.old.setup }
    requires item_low { 1 ≤ item }
    requires item_high { item ≤ item_count _instance.now }
    requires low { 1 ≤ period }
    requires high { period ≤ _instance.now.periods }
    requires within { IsSetUpWithin _instance.now high.now lots.old.setup }
    ensures make { Fits _instance.now lots.new.make }
    ensures setup { Fits _instance.now lots.new.setup }
    ensures within { IsSetUpWithin _instance.now high.now lots.new.setup }
{
    if lot > 0 && high.get(item, period) > 0 {
        lots.make.set(item, period, lot);
        lots.setup.set(item, period, 1);
    }
}

// Units of an item that are made up to a period, rounded up; None where that doesn't fit.
fn rounded(total: Frac) -> Option<u64> {
    u64::try_from(total.ceil()).ok()
}

// Puts the lots of an item: so many that their sum up to each period is that of the point, rounded up. None where a sum
// doesn't fit: some lots are put then, and others aren't.
fn put_item(
    instance: &Instance,
    high: &Grid,
    solved: &Solved,
    item: u32,
    lots: &mut Lots,
) -> Option<()>
    requires high_fits { Fits instance.now high.now }
    requires make { Fits instance.now lots.old.make }
    requires setup { Fits instance.now lots.old.setup }
    requires low { 1 ≤ item }
    requires item_high { item ≤ item_count instance.now }
    requires within { IsSetUpWithin instance.now high.now lots.old.setup }
    ensures make { Fits instance.now lots.new.make }
    ensures setup { Fits instance.now lots.new.setup }
    ensures within { IsSetUpWithin instance.now high.now lots.new.setup }
{
    let mut total = Frac::from(0i64);
    let mut made = 0u64;
    for period in 1..instance.periods() + 1 {
        let value = value_at(instance, solved, Column::X { item, period });
        total = total.add(value)?;
        let lot = rounded(total)?.saturating_sub(made);
        put_lot(instance, high, item, period, lot, lots);
        made = made.saturating_add(lot);
    }
    Some(())
}

/// The plan of a point: its quantities, rounded up along their sums, each with a setup; with no setup where none may be.
/// None where it isn't feasible, and where a sum doesn't fit.
pub(crate) fn plan_of(
    alloc: Global,
    instance: &Instance,
    high: &Grid,
    solved: &Solved,
) -> Result<Option<Planned>, AllocError>
    requires { Fits instance.now high.now }
    ensures plan { IfFound result (IsMade instance.now) }
    ensures within { IfFound result (SetsUpWithin instance.now high.now) }
{
    let mut lots = Lots {
        make: Grid::filled(alloc, instance.items(), instance.periods(), 0)?,
        setup: Grid::filled(alloc, instance.items(), instance.periods(), 0)?,
    };
    for item in 1..instance.items() + 1 {
        if put_item(instance, high, solved, item, &mut lots).is_none() {
            return Ok(None);
        }
    }
    complete_at_cost(alloc, instance, lots.make, lots.setup)
}
