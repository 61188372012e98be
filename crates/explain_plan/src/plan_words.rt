// Words on a plan file.

use crate::header_words::on_header;
use crate::number_words::on_number;
use crate::row_words::{on_count, on_row};
use crate::rows::row_of;
use crate::rule_words::on_rules;
use csv::ByteRecord;
use csv_records::{field, first_records};
use explain_lookup::{place_at, plain, word_at};
use lot_model::Instance;
use plan_file::{PlanFault, read_plan};
use std::alloc::{AllocError, Global};

const NAMES: [&str; 6] = ["item", "period", "make", "setup", "stock", "backlog"];

const HEADER: &str = "item,period,make,setup,stock,backlog";

// The name of a column, counted from 1.
fn column_name(number: usize) -> &'static str {
    match NAMES.get(number.saturating_sub(1)) {
        Some(name) => name,
        None => "?",
    }
}

// The records of a file, as many as a plan has and two.
fn plan_rows(
    alloc: Global,
    instance: &Instance,
    bytes: &[u8],
) -> Result<Vec<ByteRecord>, AllocError> {
    let cells = u64::from(instance.items()).saturating_mul(u64::from(instance.periods()));
    first_records(alloc, bytes, cells.saturating_add(2) as usize)
}

// Words on the record of this number, where a field of it is at fault or, for field 0, all of it.
fn on_record(
    alloc: Global,
    instance: &Instance,
    file: &str,
    bytes: &[u8],
    number: u32,
    column: u32,
) -> Result<String, AllocError> {
    let rows = plan_rows(alloc, instance, bytes)?;
    let Some(row) = rows.get(number as usize) else {
        return Ok(String::new(alloc));
    };
    if column == 0 {
        return on_row(alloc, instance, file, bytes, row, u64::from(number));
    }
    let (place, column) = (row_of(bytes, row), column as usize);
    on_number(alloc, file, place, column_name(column), field(row, column))
}

// Words on a file that holds no plan: `plan header`, `plan row N`, `plan number N F` and `plan count`.
fn on_no_plan(
    alloc: Global,
    instance: &Instance,
    file: &str,
    bytes: &[u8],
    line: &str,
) -> Result<String, AllocError> {
    match word_at(line, 1) {
        "header" => on_header(alloc, file, bytes, NAMES.as_slice(), HEADER),
        "row" => on_record(alloc, instance, file, bytes, place_at(line, 2), 0),
        "number" => {
            let (record, column) = (place_at(line, 2), place_at(line, 3));
            on_record(alloc, instance, file, bytes, record, column)
        }
        "count" => {
            let rows = plan_rows(alloc, instance, bytes)?;
            on_count(alloc, instance, file, bytes, &rows)
        }
        _ => Ok(String::new(alloc)),
    }
}

// Words on the rules that the plan of a file breaks.
fn on_plan(
    alloc: Global,
    instance: &Instance,
    file: &str,
    bytes: &[u8],
) -> Result<String, AllocError> {
    match read_plan(alloc, instance, bytes) {
        Ok(plan) => on_rules(alloc, instance, &plan, file),
        Err(PlanFault::Memory) => Err(AllocError),
        Err(_) => Ok(String::new(alloc)),
    }
}

/// Words on a plan file that holds no plan, or one that breaks rules; none where the line says nothing of a plan.
///
/// `line` is what was printed: `plan ..`, `broken ..`, or `rejected C12 broken ..`. Rows are those of a spreadsheet, counted
/// from 1 with the header. At most ten broken rules are written out, in the order in which `judge` looks at them.
pub fn words_on_plan(
    alloc: Global,
    instance: &Instance,
    file: &str,
    bytes: &[u8],
    line: &str,
) -> Result<String, AllocError> {
    let name = plain(alloc, file)?;
    let file = name.as_str();
    match word_at(line, 0) {
        "plan" => on_no_plan(alloc, instance, file, bytes, line),
        "broken" => on_plan(alloc, instance, file, bytes),
        "rejected" if word_at(line, 2) == "broken" => on_plan(alloc, instance, file, bytes),
        _ => Ok(String::new(alloc)),
    }
}
