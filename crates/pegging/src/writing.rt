// The text of pegs.
ghost use Rattle.std.specs.Prelude.{◌≡◌, ◌<◌, ◌^◌, ◌∷◌, ◌++◌, [], IfOk, OnOk, Some, map, string_bytes};
ghost use Rattle.std.specs.List.{All};
ghost use Rattle.csv_records.specs.Written.{HasAdded};
ghost use Rattle.pegging.specs.Sums.{IndicesExist, IsSupplyOf, IsTargetOf};
ghost use Rattle.pegging.specs.Texts.{header, peg_fields, pegs_text, supply_text, target_text};

use crate::{Peg, Supply, Target};
use csv_records::{RecordWriter, add_record, new_writer, written};
use itoa::Buffer;
use lot_model::{Instance, an_instance_breaks_no_rule};
use std::alloc::{AllocError, Global};
use std::fmt;

impl fmt::Display for Supply {
    ghost output = { λ supply. Some (supply_text supply) };

    fn fmt<W: fmt::Write>(&self, f: &mut fmt::Formatter<W>) -> fmt::Result {
        match self {
            Supply::Opening => f.write_str("opening"),
            Supply::Lot(period) => write!(f, "lot {period}"),
        }
    }
}

// Adds the text of a need.
fn add_target(text: &mut String, instance: &Instance, target: Target) -> Result<(), AllocError>
    requires { IsTargetOf instance.now target }
    ensures { OnOk result (string_bytes text.new
        ≡ string_bytes text.old ++ target_text instance.now target) }
{
    match target {
        Target::Demand(period) => write!(text, "demand {period}")?,
        Target::Part { item, period } => {
            let name = instance.item_name(item);
            write!(text, "use {name} {period}")?;
        }
        Target::End => text.push_str("end")?,
    }
    Ok(())
}

// The names of the columns.
fn header() -> [&'static [u8]; 4]
    ensures { map (λ name. name.now) result ≡ header }
{
    [
        b"item".as_slice(),
        b"from".as_slice(),
        b"to".as_slice(),
        b"quantity".as_slice(),
    ]
}

// Writes the record of a peg, over the texts of an earlier one.
fn add_row(
    writer: &mut RecordWriter,
    instance: &Instance,
    peg: &Peg,
    from: &mut String,
    to: &mut String,
) -> Result<(), AllocError>
    requires { IndicesExist instance.now peg.now }
    ensures row { OnOk result (HasAdded writer.old writer.new
        (peg_fields instance.now peg.now ∷ [])) }
    ensures fits { OnOk result (peg.now.quantity < 2 ^ 64) }
{
    let supply = peg.from;
    from.clear();
    write!(from, "{supply}")?;
    to.clear();
    add_target(to, instance, peg.to)?;
    let mut quantity = Buffer::new();
    let fields = [
        instance.item_name(peg.item).as_bytes(),
        from.as_bytes(),
        to.as_bytes(),
        quantity.format(peg.quantity).as_bytes(),
    ];
    add_record(writer, &fields)?;
    Ok(())
}

/// The text of pegs: the header, and a record for each, in order. The error is that memory ran
/// out.
pub fn write_pegs(alloc: Global, instance: &Instance, pegs: &[Peg]) -> Result<Vec<u8>, AllocError>
    requires { All (IndicesExist instance.now) pegs.now }
    ensures text { IfOk result (λ bytes. bytes.items ≡ pegs_text instance.now pegs.now) }
{
    an_instance_breaks_no_rule(instance);
    let (mut from, mut to) = (String::new(alloc), String::new(alloc));
    let mut writer = new_writer(alloc);
    add_record(&mut writer, &header())?;
    for peg in pegs {
        add_row(&mut writer, instance, peg, &mut from, &mut to)?;
    }
    let bytes = written(writer)?;
    Ok(bytes)
}
