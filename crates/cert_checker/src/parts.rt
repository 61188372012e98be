// Whether the parts of a sum may be taken.
ghost use Rattle.std.specs.Prelude.{◌≡◌, ◌↔◌, ◌+◌, ◌≤◌, ◌<◌, ◌^◌, ℕ, List, length, IfErr, IfOk, IsTrue};
ghost use Rattle.lot_sizing.specs.Problem.{Problem};
ghost use Rattle.lin_rows.specs.declared.base.RowName.TheVariants.{Cut};
ghost use Rattle.lin_rows.specs.declared.bound.Bound.{Bound};
ghost use Rattle.cert_meaning.specs.Named.{HasName, names, row_named};
ghost use Rattle.cert_meaning.specs.Parts.{AreParts, IsPart};
ghost use Rattle.cert_checker.specs.Leaves.{IsFirstWrong, IsWrongPart};

use crate::{Rejected, Why};
use certificate::Part;
use lin_rows::{Bound, Row, RowName, has_row};
use lot_model::Instance;

// Whether a number is the place of one in a list, counted from 1.
fn is_place(number: u32, count: usize) -> bool
    ensures { IsTrue result ↔ ((1 ≤ number) × (number ≤ count)) }
{
    number >= 1 && number as usize <= count
}

// Whether there is a row of this name, with so many cuts and so many bounds on the path.
fn has_name(instance: &Instance, cuts: usize, bounds: usize, name: RowName) -> bool
    ensures { IsTrue result ↔ HasName instance.now cuts bounds name }
{
    match name {
        RowName::Path(number) => is_place(number, bounds),
        RowName::Cut(number) => is_place(number, cuts),
        _ => has_row(instance, name),
    }
}

// Whether the row of a name is an equation: of the problem's rows only balances are, and of cuts those that
// say so.
fn is_equation(cuts: &[Row], name: RowName) -> bool
    requires { (k : ℕ) → name ≡ Cut k → (1 ≤ k) × (k ≤ length cuts.now) }
    ensures { (m : Problem) (total : ℕ → ℕ) (path : List Bound)
        → result ≡ (row_named (names m total cuts.now path) name).equal }
{
    match name {
        RowName::Balance(_, _) => true,
        RowName::Cut(number) => cuts[(number - 1) as usize].is_equal(),
        _ => false,
    }
}

// Whether a part may be taken, and else why not.
fn test_part(instance: &Instance, cuts: &[Row], path: &[Bound], part: Part) -> Result<(), Why>
    ensures part { IfOk result (λ _. (total : ℕ → ℕ)
        → IsPart (names instance.now total cuts.now path.now) part) }
    ensures wrong { IfErr result (λ why. (total : ℕ → ℕ)
        → IsWrongPart (names instance.now total cuts.now path.now) part why) }
{
    if !has_name(instance, cuts.len(), path.len(), part.row) {
        return Err(Why::Range);
    }
    if part.times < 0 && !is_equation(cuts, part.row) {
        return Err(Why::Sign);
    }
    Ok(())
}

// Whether all parts may be taken. Else it is said of the first that may not why, on its own line: the lines of the
// parts follow the given one. There is no such row (`Range`), or an inequality is taken a negative number of times
// (`Sign`). It takes constant time for each part, and no memory.
pub(crate) fn test_parts(
    instance: &Instance,
    cuts: &[Row],
    path: &[Bound],
    parts: &[Part],
    line: u64,
) -> Result<(), Rejected>
    requires lines { line + length parts.now < 2 ^ 64 }
    ensures parts { IfOk result (λ _. (total : ℕ → ℕ)
        → AreParts (names instance.now total cuts.now path.now) parts.now) }
    ensures fault { IfErr result (λ r. (total : ℕ → ℕ)
        → IsFirstWrong (names instance.now total cuts.now path.now) parts.now line r.line r.why) }
{
    for place in 0..parts.len() {
        match test_part(instance, cuts, path, parts[place]) {
            Ok(()) => {}
            Err(why) => {
                return Err(Rejected {
                    line: line + 1 + place as u64,
                    why,
                });
            }
        }
    }
    Ok(())
}
