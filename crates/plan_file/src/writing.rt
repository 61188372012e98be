// The text of a plan file.
ghost use Rattle.std.specs.Prelude.{◌≡◌, ◌≤◌, ◌∷◌, [], ℕ, IfOk, OnOk, length};
ghost use Rattle.lot_sizing.specs.Problem.{item_count};
ghost use Rattle.lot_sizing.specs.Texts.{plan_text};
ghost use Rattle.plan_rules.specs.Held.{plan_of, AllFit};
ghost use Rattle.csv_records.specs.Records.{records_of};
ghost use Rattle.csv_records.specs.Written.{HasAdded};
ghost use Rattle.plan_file.specs.Records.{IsPlanOf};
ghost use Rattle.plan_file.specs.Written.{FitIn64, record_of, records_of_item};
ghost use Rattle.plan_file.specs.declared.limits.TheConstants.{MAX_FILE};

use crate::header::header;
use csv_records::{RecordWriter, add_record, new_writer, written};
use itoa::Buffer;
use lot_model::{Instance, an_instance_breaks_no_rule};
use plan_rules::Plan;
use std::alloc::{AllocError, Global};

// Writes the record of an item and a period.
fn add_row(
    writer: &mut RecordWriter,
    instance: &Instance,
    plan: &Plan,
    item: u32,
    period: u32,
) -> Result<(), AllocError>
    requires fits { AllFit instance.now plan.now }
    requires item_low { 1 ≤ item }
    requires item_high { item ≤ item_count instance.now }
    requires low { 1 ≤ period }
    requires high { period ≤ instance.now.periods }
    ensures row { OnOk result (HasAdded writer.old writer.new
        (record_of instance.now (plan_of plan.now) item period ∷ [])) }
    ensures fit { OnOk result (FitIn64 (plan_of plan.now) item period) }
{
    let (mut period_digits, mut make_digits) = (Buffer::new(), Buffer::new());
    let (mut setup_digits, mut stock_digits) = (Buffer::new(), Buffer::new());
    let mut backlog_digits = Buffer::new();
    let fields = [
        instance.item_name(item).as_bytes(),
        period_digits.format(period).as_bytes(),
        make_digits.format(plan.make.get(item, period)).as_bytes(),
        setup_digits.format(plan.setup.get(item, period)).as_bytes(),
        stock_digits.format(plan.stock.get(item, period)).as_bytes(),
        backlog_digits
            .format(plan.backlog.get(item, period))
            .as_bytes(),
    ];
    add_record(writer, &fields)?;
    Ok(())
}

// Writes the records of an item.
fn add_item(
    writer: &mut RecordWriter,
    instance: &Instance,
    plan: &Plan,
    item: u32,
) -> Result<(), AllocError>
    requires fits { AllFit instance.now plan.now }
    requires low { 1 ≤ item }
    requires high { item ≤ item_count instance.now }
    ensures rows { OnOk result (HasAdded writer.old writer.new
        (records_of_item instance.now (plan_of plan.now) item)) }
    ensures fit { OnOk result ((t : ℕ) → 1 ≤ t → t ≤ instance.now.periods
        → FitIn64 (plan_of plan.now) item t) }
{
    for period in 1..instance.periods() + 1 {
        add_row(writer, instance, plan, item, period)?;
    }
    Ok(())
}

/// The text of a plan: the header, and a record for each item and period in order, in at most
/// `MAX_FILE` bytes. Read again, it is the plan. The error is that memory ran out.
pub fn write_plan(alloc: Global, instance: &Instance, plan: &Plan) -> Result<Vec<u8>, AllocError>
    requires { AllFit instance.now plan.now }
    ensures text { IfOk result (λ bytes. bytes.items ≡ plan_text instance.now (plan_of plan.now)) }
    ensures short { IfOk result (λ bytes. length bytes.items ≤ MAX_FILE) }
    ensures read { IfOk result (λ bytes.
        IsPlanOf instance.now (records_of bytes.items) (plan_of plan.now)) }
{
    an_instance_breaks_no_rule(instance);
    let mut writer = new_writer(alloc);
    add_record(&mut writer, &header())?;
    for item in 1..instance.items() + 1 {
        add_item(&mut writer, instance, plan, item)?;
    }
    let bytes = written(writer)?;
    Ok(bytes)
}
