// The item apart, and the block cut that says what it costs.
ghost use Rattle.std.specs.Prelude.{◌≡◌, IfOk, IfSome, option_map, if◌then◌else◌};
ghost use Rattle.lot_sizing.specs.Problem.{IsSeries};
ghost use Rattle.lot_sizing.specs.Single.{IsWithinBounds};
ghost use Rattle.lot_sizing.specs.declared.limits.TheConstants.{MAX_AMOUNT};
ghost use Rattle.echelon.specs.Views.{single_of_item};
ghost use Rattle.lin_rows.specs.declared.fault.CutFault.TheVariants.{Memory};
ghost use Rattle.cert_checker.specs.Cuts.{IsItem};
ghost use Rattle.item_bound.specs.Apart.{held_apart, is_component, no_costs, owed_apart};
ghost use Rattle.item_bound.specs.Steps.{IsOwnCut, IsOwnEchelon, own_single};

use backlog_dp::laws::solutions_are_allowed;
use backlog_dp::{block_row, solve};
use cert_meaning::echelon_rows_are_one;
use echelon::{EchelonItem, Net, SingleItem, net_of};
use lin_rows::{CutFault, Potentials, Row};
use lot_model::Instance;
use std::alloc::{AllocError, Global};

// Whether an item goes into some item.
fn is_component(instance: &Instance, item: u32) -> bool
    ensures { result ≡ is_component instance.now item }
{
    for other in 1..instance.items() + 1 {
        if instance.per_unit(item, other) > 0 {
            return true;
        }
    }
    false
}

// A cost of 0 in each period.
fn no_costs(alloc: Global, instance: &Instance) -> Result<Vec<u64>, AllocError>
    ensures own { IfOk result (λ list. list.items ≡ no_costs instance.now) }
    ensures series { IfOk result (λ list. IsSeries instance.now.periods MAX_AMOUNT list.items) }
{
    vec![in alloc; 0u64; instance.periods() as usize]
}

// The holding costs of an item apart.
fn held(alloc: Global, instance: &Instance, item: u32) -> Result<Vec<u64>, AllocError>
    requires { IsItem instance.now item }
    ensures own { IfOk result (λ list. list.items ≡ held_apart instance.now item) }
    ensures series { IfOk result (λ list. IsSeries instance.now.periods MAX_AMOUNT list.items) }
{
    if is_component(instance, item) {
        return no_costs(alloc, instance);
    }
    instance.hold_costs(item).to_vec(alloc)
}

// What it costs to owe a unit of an item apart, where it may be owed.
fn owed(alloc: Global, instance: &Instance, item: u32) -> Result<Vec<u64>, AllocError>
    requires { IsItem instance.now item }
    ensures own { IfOk result (λ list. list.items ≡ owed_apart instance.now item) }
    ensures series { IfOk result (λ list. IsSeries instance.now.periods MAX_AMOUNT list.items) }
{
    if is_component(instance, item) {
        return no_costs(alloc, instance);
    }
    match instance.backlog_costs(item) {
        Some(costs) => costs.to_vec(alloc),
        None => no_costs(alloc, instance),
    }
}

// What it costs to owe a unit of an item apart; None where no backlog is allowed.
fn owed_if(
    alloc: Global,
    instance: &Instance,
    item: u32,
    owing: bool,
) -> Result<Option<Vec<u64>>, AllocError>
    requires { IsItem instance.now item }
    ensures own { IfOk result (λ found. option_map (λ v. v.items) found
        ≡ (if owing then Some (owed_apart instance.now item) else None)) }
    ensures series { IfOk result (λ found.
        IfSome (option_map (λ v. v.items) found) (IsSeries instance.now.periods MAX_AMOUNT)) }
{
    if !owing {
        return Ok(None);
    }
    Ok(Some(owed(alloc, instance, item)?))
}

// The item apart: what remains to be made for its echelon, at the costs of the item apart.
fn single_apart(
    alloc: Global,
    instance: &Instance,
    echelon: &EchelonItem,
    item: u32,
) -> Result<SingleItem, AllocError>
    requires { IsOwnEchelon instance.now item echelon.now }
    ensures single { IfOk result (λ single. single_of_item single
        ≡ own_single instance.now item echelon.now) }
    ensures within { IfOk result (λ single. IsWithinBounds (single_of_item single)) }
{
    let Net { net, left: _ } = net_of(alloc, echelon)?;
    Ok(SingleItem {
        net,
        setup: instance.setup_costs(item).to_vec(alloc)?,
        unit: instance.unit_costs(item).to_vec(alloc)?,
        hold: held(alloc, instance, item)?,
        back: owed_if(alloc, instance, item, echelon.backlogged)?,
    })
}

// The costs of an item apart with its potentials, and the row of their cut.
#[derive(Drop)]
pub(crate) struct OwnCut {
    pub(crate) potentials: Potentials,
    pub(crate) row: Row,
}

// A fault that can only be out of memory.
fn want_of_memory(_fault: CutFault) -> AllocError
    requires { _fault ≡ Memory }
{
    AllocError
}

// The block cut of an item apart, by the potentials of the recursion.
pub(crate) fn own_cut(
    alloc: Global,
    instance: &Instance,
    echelon: &EchelonItem,
    item: u32,
) -> Result<OwnCut, AllocError>
    requires { IsOwnEchelon instance.now item echelon.now }
    ensures { IfOk result (λ own. IsOwnCut instance.now item own.potentials own.row) }
{
    solutions_are_allowed();
    echelon_rows_are_one();
    let single = single_apart(alloc, instance, echelon, item)?;
    let found = solve(alloc, &single)?;
    let back = owed(alloc, instance, item)?;
    let potentials = Potentials {
        setup: single.setup,
        unit: single.unit,
        hold: single.hold,
        back,
        steps: found.potentials,
    };
    match block_row(alloc, echelon, &potentials) {
        Ok(row) => Ok(OwnCut { potentials, row }),
        // What the recursion finds makes a row.
        Err(fault) => Err(want_of_memory(fault)),
    }
}
