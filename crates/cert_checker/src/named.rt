// Sums of rows by their names.
ghost use Rattle.std.specs.Prelude.{◌≡◌, ◌≤◌, ◌*◌, IfOk, IfSome, Err, length};
ghost use Rattle.std.specs.List.{All};
ghost use Rattle.lot_sizing.specs.Problem.{Problem};
ghost use Rattle.lot_sizing.specs.declared.limits.TheConstants.{MAX_ITEMS, MAX_PERIODS};
ghost use Rattle.lin_rows.specs.Base.{HasRow, row_of};
ghost use Rattle.lin_rows.specs.Columns.{IsColumn};
ghost use Rattle.lin_rows.specs.Combining.{AreOfProblem};
ghost use Rattle.lin_rows.specs.Sums.{PassesWith};
ghost use Rattle.cert_trees.specs.Paths.{AreChoices};
ghost use Rattle.cert_trees.specs.Ranges.{WithTotals};
ghost use Rattle.cert_meaning.specs.Named.{HasName, names};
ghost use Rattle.cert_meaning.specs.Parts.{AreSmall};
ghost use Rattle.cert_checker.specs.declared.named.AddFault.TheVariants.{TooLarge};
ghost use Rattle.cert_checker.specs.Named.{AddsPart, AddsWithin, AreSumsFor, AreSumsOf, IsMade, IsReadyFor, IsRowOf, PassesPart};

use certificate::Part;
use lin_rows::{Bound, Row, RowName, SumFault, Sums, base_row};
use lot_model::Instance;
use std::alloc::{AllocError, Global};

// A row of the problem that was made, and its name.
#[derive(Debug, Drop)]
struct NamedRow {
    name: RowName,
    row: Row,
}

/// Sums of rows by their names, for the columns of one instance. What is made of it once serves all leaves of a
/// certificate: the sums are cleared for each leaf, and the rows of the problem that were made are kept.
#[derive(Debug, Drop)]
pub struct NamedSums {
    pub(crate) sums: Sums,
    made: Vec<Option<NamedRow>>,
}

// Why parts were not added.
#[derive(Clone, Copy, Debug, PartialEq, Eq)]
pub(crate) enum AddFault {
    // The absolute values of what is added up of one column, or of the right sides, reach 2^127.
    TooLarge,
    // Memory ran out.
    Memory,
}

impl From<AllocError> for AddFault {
    ghost use Rattle.cert_checker.specs.declared.named.AddFault.TheVariants.{Memory};

    ghost from_gives = { λ _ e. e ≡ Memory };

    fn from(_: AllocError) -> AddFault {
        AddFault::Memory
    }
}

// Cells in which there is no row yet.
fn no_rows(alloc: Global, count: usize) -> Result<Vec<Option<NamedRow>>, AllocError>
    ensures { IfOk result (λ made. (m : Problem) → All (IsMade m) made.items) }
{
    let mut made = Vec::with_capacity(alloc, count)?;
    for _ in 0..count {
        made.push(None)?;
    }
    Ok(made)
}

// How many rows are kept: those that every item and resource has.
fn kept_rows(instance: &Instance) -> usize {
    let items = instance.items() as usize;
    let resources = instance.resources() as usize;
    (3 * items + resources) * instance.periods() as usize + 2 * items
}

// Which of the rows of items, or of resources, in each period it is, counted from 0.
fn cell(instance: &Instance, number: u32, period: u32) -> usize
    requires low { 1 ≤ number }
    requires high { number ≤ MAX_ITEMS }
    requires period_low { 1 ≤ period }
    requires period_high { period ≤ instance.now.periods }
    ensures { result ≤ MAX_ITEMS * MAX_PERIODS }
{
    ((number - 1) * instance.periods() + (period - 1)) as usize
}

// Where the row of a name is kept. That of `Late` has a place with that of `Link`, and that of `Least` with that of
// `Top`: few items have both, and they have a term or two.
fn row_place(instance: &Instance, name: RowName) -> usize
    requires { HasRow instance.now name }
{
    let items = instance.items() as usize;
    let cells = items * instance.periods() as usize;
    match name {
        RowName::Balance(item, period) => cell(instance, item, period),
        RowName::Link(item, period) | RowName::Late(item, period) => {
            cells + cell(instance, item, period)
        }
        RowName::Top(item, period) | RowName::Least(item, period) => {
            2 * cells + cell(instance, item, period)
        }
        RowName::EndMin(item) => 3 * cells + item as usize - 1,
        RowName::EndMax(item) => 3 * cells + items + item as usize - 1,
        RowName::Capacity(resource, period) => {
            3 * cells + 2 * items + cell(instance, resource, period)
        }
        RowName::Path(_) | RowName::Cut(_) => 0,
    }
}

// The row of a name.
fn made_row(alloc: Global, instance: &Instance, name: RowName) -> Result<Row, AllocError>
    requires { HasRow instance.now name }
    ensures { IfOk result (IsRowOf instance.now name) }
{
    // The row exists, so memory alone can be wanting.
    match base_row(alloc, instance, name) {
        Ok(row) => Ok(row),
        Err(_) => Err(AllocError),
    }
}

// Adds a multiple of a row whose columns exist.
fn add_row(instance: &Instance, sums: &mut Sums, row: &Row, times: i128) -> Result<(), AddFault>
    requires sums { AreSumsFor instance.now sums.old }
    requires columns { All (λ a. IsColumn instance.now a.column) row.now.terms }
    ensures shape { AreSumsFor instance.now sums.new }
    ensures added { IfOk result (λ _. AddsWithin sums.old sums.new row.now times) }
    ensures passed { result ≡ Err TooLarge → PassesWith sums.old row.now times }
{
    match sums.add_times(row, times) {
        Ok(()) => Ok(()),
        Err(SumFault::Passed128) => Err(AddFault::TooLarge),
    }
}

impl NamedSums {
    /// Sums of nothing, for an instance. It takes memory and time in the number of the instance's columns and rows;
    /// the error is that memory ran out.
    pub fn new(alloc: Global, instance: &Instance) -> Result<NamedSums, AllocError>
        ensures { IfOk result (IsReadyFor instance.now) }
    {
        let sums = Sums::new(alloc, instance)?;
        let made = no_rows(alloc, kept_rows(instance))?;
        Ok(NamedSums { sums, made })
    }

    // Takes a row out of its cell, if it is there.
    fn take_kept(&mut self, instance: &Instance, place: usize, name: RowName) -> Option<Row>
        requires { IsReadyFor instance.now self.old }
        ensures ready { IsReadyFor instance.now self.new }
        ensures sums { self.new.sums ≡ self.old.sums }
        ensures row { IfSome result (IsRowOf instance.now name) }
    {
        if place >= self.made.len() {
            return None;
        }
        let made = self.made[place].take()?;
        if made.name != name {
            return None;
        }
        Some(made.row)
    }

    // The row of a name: it is taken out of its cell, or made.
    fn take_row(
        &mut self,
        alloc: Global,
        instance: &Instance,
        place: usize,
        name: RowName,
    ) -> Result<Row, AllocError>
        requires ready { IsReadyFor instance.now self.old }
        requires name { HasRow instance.now name }
        ensures ready { IsReadyFor instance.now self.new }
        ensures sums { self.new.sums ≡ self.old.sums }
        ensures row { IfOk result (IsRowOf instance.now name) }
    {
        match self.take_kept(instance, place, name) {
            Some(row) => Ok(row),
            None => made_row(alloc, instance, name),
        }
    }

    // Puts a row into its cell.
    fn keep(&mut self, instance: &Instance, place: usize, name: RowName, row: Row)
        requires ready { IsReadyFor instance.now self.old }
        requires row { IsRowOf instance.now name row }
        ensures ready { IsReadyFor instance.now self.new }
        ensures sums { self.new.sums ≡ self.old.sums }
    {
        if place < self.made.len() {
            self.made[place] = Some(NamedRow { name, row });
        }
    }

    // Adds a multiple of a row of the problem.
    fn add_base(
        &mut self,
        alloc: Global,
        instance: &Instance,
        name: RowName,
        times: i128,
    ) -> Result<(), AddFault>
        requires ready { IsReadyFor instance.now self.old }
        requires name { HasRow instance.now name }
        ensures ready { IsReadyFor instance.now self.new }
        ensures added { IfOk result (λ _. WithTotals instance.now
            (λ total. AddsWithin self.old.sums self.new.sums (row_of instance.now total name)
            times)) }
        ensures passed { result ≡ Err TooLarge
            → WithTotals instance.now
            (λ total. PassesWith self.old.sums (row_of instance.now total name) times) }
    {
        let place = row_place(instance, name);
        let row = self.take_row(alloc, instance, place, name)?;
        let added = add_row(instance, &mut self.sums, &row, times);
        self.keep(instance, place, name, row);
        added
    }

    // Adds a multiple of a row by its name.
    fn add_part(
        &mut self,
        alloc: Global,
        instance: &Instance,
        cuts: &[Row],
        path: &[Bound],
        part: Part,
    ) -> Result<(), AddFault>
        requires ready { IsReadyFor instance.now self.old }
        requires cuts { AreOfProblem instance.now cuts.now }
        requires path { AreChoices instance.now path.now }
        requires name { HasName instance.now (length cuts.now) (length path.now) part.row }
        ensures ready { IsReadyFor instance.now self.new }
        ensures added { IfOk result (λ _. WithTotals instance.now
            (λ total. AddsPart self.old.sums self.new.sums part
            (names instance.now total cuts.now path.now))) }
        ensures passed { result ≡ Err TooLarge
            → WithTotals instance.now
            (λ total. PassesPart self.old.sums part (names instance.now total cuts.now path.now)) }
    {
        match part.row {
            RowName::Cut(number) => {
                let row = &cuts[(number - 1) as usize];
                add_row(instance, &mut self.sums, row, part.times)
            }
            RowName::Path(number) => {
                let row = path[(number - 1) as usize].row(alloc)?;
                add_row(instance, &mut self.sums, &row, part.times)
            }
            name => self.add_base(alloc, instance, name, part.times),
        }
    }

    // Sums parts whose rows exist. `TooLarge` comes exactly where the absolute values of what is added up of one
    // column, or of the right sides, reach 2^127. It takes time in the number of columns and the length of the
    // parts' rows, and memory for the rows that are made for the first time.
    pub(crate) fn sum_parts(
        &mut self,
        alloc: Global,
        instance: &Instance,
        cuts: &[Row],
        path: &[Bound],
        parts: &[Part],
    ) -> Result<(), AddFault>
        requires ready { IsReadyFor instance.now self.old }
        requires cuts { AreOfProblem instance.now cuts.now }
        requires path { AreChoices instance.now path.now }
        requires parts { All (λ part. HasName instance.now (length cuts.now) (length path.now)
            part.row) parts.now }
        ensures ready { IsReadyFor instance.now self.new }
        ensures sums { IfOk result (λ _. WithTotals instance.now
            (λ total. AreSumsOf (names instance.now total cuts.now path.now) parts.now
            self.new.sums)) }
        ensures small { IfOk result (λ _.
            WithTotals instance.now
            (λ total. AreSmall (names instance.now total cuts.now path.now) parts.now)) }
        ensures large { result ≡ Err TooLarge
            → WithTotals instance.now
            (λ total. AreSmall (names instance.now total cuts.now path.now) parts.now → ⊥) }
    {
        self.sums.clear();
        for place in 0..parts.len() {
            match self.add_part(alloc, instance, cuts, path, parts[place]) {
                Ok(()) => {}
                Err(fault) => return Err(fault),
            }
        }
        Ok(())
    }
}
