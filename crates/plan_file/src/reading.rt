// From the records of a text to a plan.
ghost use Rattle.std.specs.Prelude.{◌≡◌, ◌≢◌, ◌⊎◌, ◌≤◌, ◌<◌, ◌+◌, ◌-◌, ℕ, IfOk, IfErr, IfSome, IfNone, OnOk, IsTrue, ◌↔◌, List, [], map, length, unwrap_or};
ghost use Rattle.csv.specs.Records.{fields_of};
ghost use Rattle.lot_sizing.specs.Problem.{item_count};
ghost use Rattle.lot_sizing.specs.Plan.{EachCell};
ghost use Rattle.plan_rules.specs.Held.{AllFit, plan_of};
ghost use Rattle.csv_records.specs.Records.{IsNumber, field, record_at, records_of};
ghost use Rattle.plan_file.specs.Records.{AreNumbersOf, HasHeader, HasNumbers, IsPlanOf, IsRead, is_header, is_row, number_of};
ghost use Rattle.plan_file.specs.Faults.{IsFirstBad, IsPlanFault, IsRecordFault, IsCellFault};
ghost use Rattle.plan_file.specs.Numbers.{ArePut, AreReadBefore, HasNumbersIn, IsPutFrom};

use crate::header::header;
use crate::{NumberField, PlanFault};
use csv::ByteRecord;
use csv_records::{field, first_records, is_number, number};
use lot_model::Instance;
use plan_rules::{Grid, Plan};
use std::alloc::Global;

// Whether a record is that of an item and a period.
fn is_row(instance: &Instance, item: u32, period: u32, row: &ByteRecord) -> bool
    requires low { 1 ≤ item }
    requires high { item ≤ item_count instance.now }
    ensures { result ≡ is_row instance.now item period (fields_of row.now) }
{
    row.len() == 6
        && field(row, 1) == instance.item_name(item).as_bytes()
        && is_number(field(row, 2), period as u64)
}

/// The four numbers of a record.
#[derive(Clone, Copy)]
pub struct Numbers {
    pub make: u64,
    pub setup: u64,
    pub stock: u64,
    pub backlog: u64,
}

// The numbers of a record, or the first of the last four fields that is none.
fn numbers_of(row: &ByteRecord) -> Result<Numbers, NumberField>
    ensures ok { IfOk result (HasNumbersIn (fields_of row.now)) }
    ensures bad { IfErr result (IsFirstBad (fields_of row.now)) }
{
    let make = match number(field(row, 3)) {
        Some(n) => n,
        None => return Err(NumberField::Make),
    };
    let setup = match number(field(row, 4)) {
        Some(n) => n,
        None => return Err(NumberField::Setup),
    };
    let stock = match number(field(row, 5)) {
        Some(n) => n,
        None => return Err(NumberField::Stock),
    };
    let backlog = match number(field(row, 6)) {
        Some(n) => n,
        None => return Err(NumberField::Backlog),
    };
    Ok(Numbers {
        make,
        setup,
        stock,
        backlog,
    })
}

// Puts the numbers of a record in a plan.
fn put(instance: &Instance, plan: &mut Plan, item: u32, period: u32, numbers: Numbers)
    requires fits { AllFit instance.now plan.old }
    requires item_low { 1 ≤ item }
    requires item_high { item ≤ item_count instance.now }
    requires low { 1 ≤ period }
    requires high { period ≤ instance.now.periods }
    ensures fits { AllFit instance.now plan.new }
    ensures put { ArePut instance.now (plan_of plan.old) (plan_of plan.new) item period numbers }
{
    plan.make.set(item, period, numbers.make);
    plan.setup.set(item, period, numbers.setup);
    plan.stock.set(item, period, numbers.stock);
    plan.backlog.set(item, period, numbers.backlog);
}

// Reads the record of an item and a period into a plan. It takes no memory.
fn read_record(
    instance: &Instance,
    rows: &[ByteRecord],
    item: u32,
    period: u32,
    plan: &mut Plan,
) -> Result<(), PlanFault>
    requires fits { AllFit instance.now plan.old }
    requires item_low { 1 ≤ item }
    requires item_high { item ≤ item_count instance.now }
    requires low { 1 ≤ period }
    requires high { period ≤ instance.now.periods }
    ensures fits { AllFit instance.now plan.new }
    ensures read { OnOk result (IsPutFrom instance.now (map fields_of rows.now) (plan_of plan.old)
        (plan_of plan.new) item period) }
    ensures refused { IfErr result (IsRecordFault instance.now (map fields_of rows.now) item
        period) }
{
    let number = (item - 1) * instance.periods() + period;
    if number as usize >= rows.len() {
        return Err(PlanFault::RowCount);
    }
    let row = &rows[number as usize];
    if !is_row(instance, item, period, row) {
        return Err(PlanFault::Row(number as u64));
    }
    match numbers_of(row) {
        Ok(numbers) => {
            put(instance, plan, item, period, numbers);
            Ok(())
        }
        Err(bad) => Err(PlanFault::Number(number as u64, bad)),
    }
}

// Reads the records of an item into a plan into which those of all earlier items were read. It
// takes no memory.
fn read_item(
    instance: &Instance,
    rows: &[ByteRecord],
    item: u32,
    plan: &mut Plan,
) -> Result<(), PlanFault>
    requires fits { AllFit instance.now plan.old }
    requires low { 1 ≤ item }
    requires high { item ≤ item_count instance.now }
    requires earlier { AreReadBefore instance.now (map fields_of rows.now) (plan_of plan.old) item }
    ensures fits { OnOk result (AllFit instance.now plan.new) }
    ensures read { OnOk result (AreReadBefore instance.now (map fields_of rows.now)
        (plan_of plan.new) (item + 1)) }
    ensures refused { IfErr result (IsCellFault instance.now (map fields_of rows.now)) }
{
    for period in 1..instance.periods() + 1 {
        read_record(instance, rows, item, period, plan)?;
    }
    Ok(())
}

// Reads all records after the header into a plan. It takes no memory.
fn read_records(instance: &Instance, rows: &[ByteRecord], plan: &mut Plan) -> Result<(), PlanFault>
    requires fits { AllFit instance.now plan.old }
    ensures fits { OnOk result (AllFit instance.now plan.new) }
    ensures read { OnOk result (EachCell instance.now
        (IsRead instance.now (map fields_of rows.now) (plan_of plan.new))) }
    ensures refused { IfErr result (IsCellFault instance.now (map fields_of rows.now)) }
{
    for item in 1..instance.items() + 1 {
        read_item(instance, rows, item, plan)?;
    }
    Ok(())
}

// Whether the first record is the header.
fn has_header(rows: &[ByteRecord]) -> bool
    ensures { IsTrue result ↔ HasHeader (map fields_of rows.now) }
{
    csv_records::has_header(rows, &header())
}

/// The plan whose records these bytes are, after a header, or the first fault in their order.
///
/// It takes time in the length of the bytes, and memory for no more records than the plan has and
/// two.
pub fn read_plan(alloc: Global, instance: &Instance, bytes: &[u8]) -> Result<Plan, PlanFault>
    ensures fits { IfOk result (AllFit instance.now) }
    ensures plan { IfOk result (λ plan.
        IsPlanOf instance.now (records_of bytes.now) (plan_of plan)) }
    ensures refused { IfErr result (IsPlanFault instance.now (records_of bytes.now)) }
{
    let (items, periods) = (instance.items(), instance.periods());
    let count = (items * periods) as usize;
    let rows = first_records(alloc, bytes, count + 2)?;
    if !has_header(&rows) {
        return Err(PlanFault::Header);
    }
    let mut plan = Plan {
        make: Grid::filled(alloc, items, periods, 0)?,
        setup: Grid::filled(alloc, items, periods, 0)?,
        stock: Grid::filled(alloc, items, periods, 0)?,
        backlog: Grid::filled(alloc, items, periods, 0)?,
    };
    read_records(instance, &rows, &mut plan)?;
    if rows.len() != count + 1 {
        return Err(PlanFault::RowCount);
    }
    Ok(plan)
}
