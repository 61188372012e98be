// `complete`: completes the quantities in a file to a plan, by the model in another, and writes the plan to a third.
ghost use Rattle.std.specs.Prelude.{◌≡◌, ◌≤◌, ◌+◌, ◌*◌, ◌∷◌, [], string_bytes, IsTrue, IfErr, IfOk, OnOk, OnErr};
ghost use Rattle.lot_io.specs.Outside.{Finds, OnlyReads, piece_size};
ghost use Rattle.plan_rules.specs.Cells.{table_of};
ghost use Rattle.plan_rules.specs.Held.{AllFit};
ghost use Rattle.lot_quantities.specs.Numbers.{BothFit};
ghost use Rattle.lotplan.specs.Meaning.{Says};
ghost use Rattle.lotplan.specs.Completing.{complete_meaning, ExplainsNoTable, GridsSay, HoldsTable, HoldsTables, PutsAndSays, TableExplains, TablesExplain, complete_line, complete_meant, complete_status, table_line, table_meant, table_status};
ghost use Rattle.lotplan.specs.Reading.{file_limit};
ghost use Rattle.lotplan.specs.Saying.{IsSaid};
ghost use Rattle.lotplan.specs.Fetching.{FetchesAs, NoTableFetches};
ghost use Rattle.lotplan.specs.Writing.{AppendsAs};

use crate::model_file::{ReadAnswer, Stop, read_bytes, read_model};
use crate::said::Said;
use crate::status::Status;
use crate::writing::unwritten_line;
use lot_io::{Shelf, write_file};
use lot_model::Instance;
use lot_quantities::{Quantities, QuantityFault, complete_or_judge, read_quantities};
use plan_file::write_plan;
use plan_rules::{Broken, Planned};
use std::alloc::{AllocError, Global};

/// Why files gave no quantities.
#[derive(Clone, Copy, Debug, PartialEq, Eq)]
pub enum TableAnswer<'a> {
    /// The table holds none.
    Faulty(QuantityFault),
    /// The model file gave no instance, or the table's file no bytes.
    NoInput(ReadAnswer<'a>),
}

impl TableAnswer<'_> {
    /// The line and the status.
    pub fn answer_line(&self, alloc: Global) -> Result<Said, AllocError>
        ensures { IfOk result (IsSaid (table_line (table_meant self.now))
            (table_status (table_meant self.now))) }
    {
        Ok(Said::of(self.line(alloc)?, self.status()))
    }

    /// The status.
    pub fn status(&self) -> Status
        ensures { result ≡ table_status (table_meant self.now) }
    {
        match self {
            TableAnswer::Faulty(_) => Status::Faulty,
            TableAnswer::NoInput(why) => why.status(),
        }
    }

    /// The line that is printed, with its line feed.
    pub fn line(&self, alloc: Global) -> Result<String, AllocError>
        ensures { IfOk result (λ line. string_bytes line ≡ table_line (table_meant self.now)) }
    {
        match self {
            TableAnswer::Faulty(fault) => format!(in alloc; "{fault}\n"),
            TableAnswer::NoInput(why) => why.line(alloc),
        }
    }
}

/// What `complete` answers where there are quantities.
#[derive(Clone, Copy, Debug, PartialEq, Eq)]
pub enum CompleteAnswer<'a> {
    /// The plan was written, and costs this.
    Completed(u128),
    /// The file of this name could not be written.
    Unwritten(&'a str),
    /// No feasible plan has the quantities and setups, and this rule is the first that is broken.
    Broken(Broken),
}

impl CompleteAnswer<'_> {
    /// The line and the status.
    pub fn answer_line(&self, alloc: Global) -> Result<Said, AllocError>
        ensures { IfOk result (IsSaid (complete_line (complete_meant self.now))
            (complete_status (complete_meant self.now))) }
    {
        Ok(Said::of(self.line(alloc)?, self.status()))
    }

    /// The status.
    pub fn status(&self) -> Status
        ensures { result ≡ complete_status (complete_meant self.now) }
    {
        match self {
            CompleteAnswer::Completed(_) => Status::Done,
            CompleteAnswer::Unwritten(_) => Status::Unwritten,
            CompleteAnswer::Broken(_) => Status::Faulty,
        }
    }

    /// The line that is printed, with its line feed.
    pub fn line(&self, alloc: Global) -> Result<String, AllocError>
        ensures { IfOk result (λ line. string_bytes line
            ≡ complete_line (complete_meant self.now)) }
    {
        match self {
            CompleteAnswer::Completed(cost) => format!(in alloc; "completed {cost}\n"),
            CompleteAnswer::Unwritten(file) => unwritten_line(alloc, *file),
            CompleteAnswer::Broken(rule) => format!(in alloc; "{rule}\n"),
        }
    }
}

/// Why files hold no quantities.
#[derive(Clone, Copy, Debug, PartialEq, Eq)]
pub enum NoTable<'a> {
    /// What `complete` answers.
    Answered(TableAnswer<'a>),
    /// Memory ran out.
    Memory,
}

/// A model, and quantities and setups of it.
#[derive(Drop)]
struct ModelAndTable {
    pub instance: Instance,
    pub table: Quantities,
}

// The quantities in a file.
fn read_table<'a, S: Shelf>(
    alloc: Global,
    instance: &Instance,
    table: &'a str,
    shelf: &mut S,
) -> Result<Quantities, NoTable<'a>>
    ensures fits { IfOk result (BothFit instance.now) }
    ensures table { IfOk result (λ q. IsTrue (S.shown shelf.old).told
        → HoldsTable (S.shown shelf.old).file table.entry.now instance.now q) }
    ensures stop { IfErr result (ExplainsNoTable
        (TableExplains instance.now table.entry.now (S.shown shelf.old) (S.shown shelf.new))) }
    ensures reads { OnlyReads (S.shown shelf.old) (S.shown shelf.new) }
    ensures found { OnOk result (Finds (S.shown shelf.old) (S.shown shelf.new)) }
    ensures stopped { IfErr result (NoTableFetches (S.shown shelf.old) (S.shown shelf.new)) }
    ensures given { (S.shown shelf.new).given
        ≤ (S.shown shelf.old).given + (file_limit + piece_size) }
{
    let bytes = match read_bytes(alloc, table, shelf) {
        Ok(bytes) => bytes,
        Err(Stop::Answered(why)) => return Err(NoTable::Answered(TableAnswer::NoInput(why))),
        Err(Stop::Memory) => return Err(NoTable::Memory),
    };
    match read_quantities(alloc, instance, bytes.as_slice()) {
        Ok(quantities) => Ok(quantities),
        Err(QuantityFault::Memory) => Err(NoTable::Memory),
        Err(fault) => Err(NoTable::Answered(TableAnswer::Faulty(fault))),
    }
}

// The model in a file, and the quantities in another.
fn read_tables<'a, S: Shelf>(
    alloc: Global,
    model: &'a str,
    table: &'a str,
    shelf: &mut S,
) -> Result<ModelAndTable, NoTable<'a>>
    ensures fits { IfOk result (λ read. BothFit read.instance read.table) }
    ensures holds { IfOk result (λ read. IsTrue (S.shown shelf.old).told
        → HoldsTables (S.shown shelf.old).file model.entry.now table.entry.now read.instance
        read.table) }
    ensures stop { IfErr result (ExplainsNoTable
        (TablesExplain model.entry.now table.entry.now (S.shown shelf.old) (S.shown shelf.new))) }
    ensures reads { OnlyReads (S.shown shelf.old) (S.shown shelf.new) }
    ensures found { OnOk result (Finds (S.shown shelf.old) (S.shown shelf.new)) }
    ensures stopped { IfErr result (NoTableFetches (S.shown shelf.old) (S.shown shelf.new)) }
    ensures given { (S.shown shelf.new).given
        ≤ (S.shown shelf.old).given + 2 * (file_limit + piece_size) }
{
    let instance = match read_model(alloc, model, shelf) {
        Ok(instance) => instance,
        Err(Stop::Answered(why)) => return Err(NoTable::Answered(TableAnswer::NoInput(why))),
        Err(Stop::Memory) => return Err(NoTable::Memory),
    };
    match read_table(alloc, &instance, table, shelf) {
        Ok(table) => Ok(ModelAndTable { instance, table }),
        Err(stop) => Err(stop),
    }
}

// Writes a plan and says what it costs. All memory is taken before the file is started.
fn write_completed<S: Shelf>(
    alloc: Global,
    instance: &Instance,
    planned: &Planned,
    file: &str,
    shelf: &mut S,
) -> Result<Said, AllocError>
    requires fits { AllFit instance.now planned.now.plan }
    ensures said { IfOk result (PutsAndSays instance.now planned.now.plan planned.now.cost file.now
        (S.shown shelf.old) (S.shown shelf.new)) }
    ensures memory { OnErr result (S.shown shelf.new ≡ S.shown shelf.old) }
    ensures found { Finds (S.shown shelf.old) (S.shown shelf.new) }
    ensures given { (S.shown shelf.new).given ≡ (S.shown shelf.old).given }
{
    let bytes = write_plan(alloc, instance, &planned.plan)?;
    let written = CompleteAnswer::Completed(planned.cost).answer_line(alloc)?;
    let unwritten = CompleteAnswer::Unwritten(file).answer_line(alloc)?;
    match write_file(shelf, file, bytes.as_slice()) {
        Ok(()) => Ok(written),
        Err(_) => Ok(unwritten),
    }
}

// Completes quantities and setups to a plan, and writes it to a file.
fn complete_grids<S: Shelf>(
    alloc: Global,
    instance: &Instance,
    table: Quantities,
    file: &str,
    shelf: &mut S,
) -> Result<Said, AllocError>
    requires { BothFit instance.now table }
    ensures said { IfOk result (GridsSay instance.now (table_of table.make)
        (table_of table.setup) file.now (S.shown shelf.old) (S.shown shelf.new)) }
    ensures memory { OnErr result (S.shown shelf.new ≡ S.shown shelf.old) }
    ensures found { Finds (S.shown shelf.old) (S.shown shelf.new) }
    ensures appended { IfOk result (λ said. AppendsAs (file.now ∷ []) said.status
        (S.shown shelf.old) (S.shown shelf.new)) }
    ensures given { (S.shown shelf.new).given ≡ (S.shown shelf.old).given }
{
    match complete_or_judge(alloc, instance, table.make, table.setup) {
        Ok(Ok(planned)) => write_completed(alloc, instance, &planned, file, shelf),
        Ok(Err(rule)) => CompleteAnswer::Broken(rule).answer_line(alloc),
        Err(_) => Err(AllocError),
    }
}

/// Completes the quantities in a file to a plan, by the model in another, and writes the plan to a third; where no feasible
/// plan has these quantities and setups, says the first rule that is broken.
pub fn complete_files<'a, S: Shelf>(
    alloc: Global,
    model: &'a str,
    table: &'a str,
    file: &str,
    shelf: &mut S,
) -> Result<Said, AllocError>
    ensures said { IfOk result (Says (complete_meaning model.entry.now table.entry.now file.now)
        (S.shown shelf.old) (S.shown shelf.new)) }
    ensures memory { OnErr result (OnlyReads (S.shown shelf.old) (S.shown shelf.new)) }
    ensures found { IfOk result (λ said. FetchesAs said.status (S.shown shelf.old)
        (S.shown shelf.new)) }
    ensures appended { IfOk result (λ said. AppendsAs (file.now ∷ []) said.status
        (S.shown shelf.old) (S.shown shelf.new)) }
    ensures given { (S.shown shelf.new).given
        ≤ (S.shown shelf.old).given + 2 * (file_limit + piece_size) }
{
    match read_tables(alloc, model, table, shelf) {
        Ok(read) => {
            let quantities = read.table;
            complete_grids(alloc, &read.instance, quantities, file, shelf)
        }
        Err(NoTable::Answered(answer)) => answer.answer_line(alloc),
        Err(NoTable::Memory) => Err(AllocError),
    }
}
