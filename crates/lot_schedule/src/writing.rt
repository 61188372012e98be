// The text of a schedule file.
ghost use Rattle.std.specs.Prelude.{◌≡◌, ◌≤◌, ◌∷◌, [], length, IfOk, OnOk};
ghost use Rattle.csv_records.specs.Records.{records_of};
ghost use Rattle.csv_records.specs.Written.{HasAdded};
ghost use Rattle.plan_file.specs.declared.limits.TheConstants.{MAX_FILE};
ghost use Rattle.lot_schedule.specs.Slots.{AllExist, Exists};
ghost use Rattle.lot_schedule.specs.Records.{AreRowsOf, TimesFit, row_of};
ghost use Rattle.lot_schedule.specs.Texts.{most_slots, schedule_text};

use crate::Slot;
use crate::header::header;
use csv_records::{RecordWriter, add_record, new_writer, written};
use itoa::Buffer;
use lot_model::{Instance, an_instance_breaks_no_rule};
use std::alloc::{AllocError, Global};

// Writes the row of a slot.
fn add_row(writer: &mut RecordWriter, instance: &Instance, slot: Slot) -> Result<(), AllocError>
    requires { Exists instance.now slot }
    ensures row { OnOk result (HasAdded writer.old writer.new (row_of instance.now slot ∷ [])) }
    ensures times { OnOk result (TimesFit slot) }
{
    let (mut period, mut start, mut end) = (Buffer::new(), Buffer::new(), Buffer::new());
    let fields = [
        instance.resource_name(slot.resource).as_bytes(),
        period.format(slot.period).as_bytes(),
        instance.item_name(slot.item).as_bytes(),
        start.format(slot.start).as_bytes(),
        end.format(slot.end).as_bytes(),
    ];
    add_record(writer, &fields)?;
    Ok(())
}

/// The text of slots: the header, and a line for each, with the names of its resource and item.
/// Read again, it is these slots. Of as many slots as a schedule may have it is no longer than a
/// file that is read. The error is that memory ran out.
pub fn write_schedule(
    alloc: Global,
    instance: &Instance,
    slots: &[Slot],
) -> Result<Vec<u8>, AllocError>
    requires { AllExist instance.now slots.now }
    ensures text { IfOk result (λ bytes. bytes.items ≡ schedule_text instance.now slots.now) }
    ensures read { IfOk result (λ bytes.
        AreRowsOf instance.now (records_of bytes.items) slots.now) }
    ensures short { IfOk result (λ bytes. length slots.now ≤ most_slots
        → length bytes.items ≤ MAX_FILE) }
{
    an_instance_breaks_no_rule(instance);
    let mut writer = new_writer(alloc);
    add_record(&mut writer, &header())?;
    for slot in slots {
        add_row(&mut writer, instance, *slot)?;
    }
    let bytes = written(writer)?;
    Ok(bytes)
}
