// The cuts and the leaf to begin with.
ghost use Rattle.std.specs.Prelude.{◌≡◌, ◌≤◌, ℕ, IfOk, Some, length, map};
ghost use Rattle.std.specs.List.{All};
ghost use Rattle.lot_sizing.specs.Problem.{Problem};
ghost use Rattle.lot_sizing.specs.declared.limits.TheConstants.{MAX_ITEMS};
ghost use Rattle.lin_rows.specs.Combining.{AreOfProblem};
ghost use Rattle.cert_lines.specs.Shapes.{cut_shape, leaf_shape};
ghost use Rattle.echelon.specs.Weights.{IsExplosionOf};
ghost use Rattle.cert_trees.specs.Ranges.{WithTotals};
ghost use Rattle.cert_meaning.specs.Accepts.{IsSmallCut};
ghost use Rattle.cert_checker.specs.Checks.{HaveGoodRows};
ghost use Rattle.cert_checker.specs.Cuts.{HasItsColumns, IsRowOfCut};
ghost use Rattle.lp_relaxation.specs.Rounds.{IsLs};
ghost use Rattle.lp_root.specs.Root.{AreWritable, BoundsPlans, HasFigures, RootMeans, root_cuts};
ghost use Rattle.leaf_growth.specs.Written.{HasVersion};
ghost use Rattle.branching.specs.Beginning.{AreApart, BeginsWith, IsClosedBy};
ghost use Rattle.search_result.specs.declared.found.RootSays.TheVariants.{Closed};

use cert_checker::cut_row_in;
use cert_meaning::{cut_rows_are_one, cut_rows_go_on};
use certificate::{Cut, Leaf};
use echelon::Explosion;
use item_bound::{Apart, apart_leaf};
use lin_rows::Row;
use lot_model::{Instance, an_instance_breaks_no_rule};
use lp_root::Root;
use search_result::RootSays;
use std::alloc::{AllocError, Global};
use tree_search::Proposal;

/// Cuts with their rows, and a leaf over them.
#[derive(Debug, Drop)]
pub(crate) struct Opening {
    pub(crate) cuts: Vec<Cut>,
    pub(crate) rows: Vec<Row>,
    pub(crate) first: Proposal,
    /// What the leaf says: no plan costs less, in money.
    pub(crate) least: u128,
}

// A leaf that says an amount.
fn proposal_of(leaf: Leaf, amount: u128) -> Proposal
    ensures leaf { result.leaf ≡ leaf }
    ensures says { result.says ≡ Some amount }
{
    Proposal {
        leaf,
        says: Some(amount),
        examined: false,
        note: None,
    }
}

// The row of an (l,S) cut of the root, after the rows of those before it.
fn row_of(
    alloc: Global,
    instance: &Instance,
    explosion: &Explosion,
    rows: &[Row],
    cut: &Cut,
) -> Result<Row, AllocError>
    requires explosion { IsExplosionOf instance.now explosion.now }
    requires rows { AreOfProblem instance.now rows.now }
    requires ls { IsLs (cut_shape cut.now) }
    ensures row { IfOk result (IsRowOfCut instance.now rows.now (cut_shape cut.now)) }
    ensures small { IfOk result (λ _.
        WithTotals instance.now
        (λ total. IsSmallCut instance.now total rows.now (cut_shape cut.now))) }
    ensures columns_exist { IfOk result (HasItsColumns instance.now) }
{
    match cut_row_in(alloc, instance, explosion, rows, cut, 0) {
        Ok(row) => Ok(row),
        // Each cut of the root has a row, so that only memory can be wanting.
        Err(_) => Err(AllocError),
    }
}

// The rows of (l,S) cuts, each after those before it.
fn rows_of(alloc: Global, instance: &Instance, cuts: &[Cut]) -> Result<Vec<Row>, AllocError>
    requires { All (λ c. IsLs (cut_shape c)) cuts.now }
    ensures rows { IfOk result (λ rows.
        HaveGoodRows instance.now (map cut_shape cuts.now) rows.items) }
    ensures columns_exist { IfOk result (λ rows. AreOfProblem instance.now rows.items) }
{
    cut_rows_go_on();
    let explosion = Explosion::of(alloc, instance)?;
    let mut rows = Vec::new(alloc);
    for cut in cuts {
        let row = row_of(alloc, instance, &explosion, &rows, cut)?;
        rows.push(row)?;
    }
    Ok(rows)
}

// How many cuts these are.
fn count_of(cuts: &[Cut]) -> u32
    requires { length cuts.now ≤ MAX_ITEMS }
    ensures { result ≡ length cuts.now }
{
    cuts.len() as u32
}

// Begins with the cuts of the items apart.
fn begin_apart(alloc: Global, apart: Apart) -> Result<Opening, AllocError>
    requires { length apart.cuts.items ≤ MAX_ITEMS }
    ensures begins { IfOk result (λ b. (m : Problem) (version : ℕ) → HasVersion m version
        → AreApart m apart → BeginsWith m version b) }
    ensures least { IfOk result (λ b. b.least ≡ apart.amount) }
{
    let count = count_of(&apart.cuts);
    let leaf = apart_leaf(alloc, 0, count)?;
    Ok(Opening {
        cuts: apart.cuts,
        rows: apart.rows,
        first: proposal_of(leaf, apart.amount),
        least: apart.amount,
    })
}

// Begins with the cuts of the root, whose relaxation closes to this amount.
fn begin_closed(
    alloc: Global,
    instance: &Instance,
    cuts: Vec<Cut>,
    leaf: Leaf,
    amount: u128,
) -> Result<Opening, AllocError>
    requires { IsClosedBy instance.now (map cut_shape cuts.items) (leaf_shape leaf) amount }
    ensures begins { IfOk result (λ b. (version : ℕ) → HasVersion instance.now version
        → BeginsWith instance.now version b) }
    ensures least { IfOk result (λ b. b.least ≡ amount) }
{
    cut_rows_are_one();
    an_instance_breaks_no_rule(instance);
    let rows = rows_of(alloc, instance, &cuts)?;
    Ok(Opening {
        cuts,
        rows,
        first: proposal_of(leaf, amount),
        least: amount,
    })
}

/// The cuts and the leaf to begin with: those of the root where it closes to no less than what the items cost apart, and
/// otherwise those of the items apart.
pub(crate) fn begin(
    alloc: Global,
    instance: &Instance,
    root: Root,
    apart: Apart,
) -> Result<Opening, AllocError>
    requires figures { HasFigures instance.now }
    requires means { RootMeans instance.now root }
    requires writable { AreWritable instance.now (root_cuts root) root.leaf }
    requires bounds { BoundsPlans instance.now root.says }
    requires apart { AreApart instance.now apart }
    ensures begins { IfOk result (λ b. (version : ℕ) → HasVersion instance.now version
        → BeginsWith instance.now version b) }
    ensures apart { IfOk result (λ b. apart.amount ≤ b.least) }
    ensures closed { IfOk result (λ b. (amount : ℕ) → root.says ≡ Closed amount
        → amount ≤ b.least) }
{
    let Root { says, cuts, leaf } = root;
    match says {
        RootSays::Closed(amount) => match leaf {
            Some(leaf) => {
                if apart.amount <= amount {
                    begin_closed(alloc, instance, cuts, leaf, amount)
                } else {
                    begin_apart(alloc, apart)
                }
            }
            // A root that closes has a leaf.
            None => begin_apart(alloc, apart),
        },
        _ => begin_apart(alloc, apart),
    }
}
