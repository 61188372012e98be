// Numbers and lists of numbers as JSON.
ghost use Rattle.std.specs.Prelude.{◌≡◌, ◌≤◌, ◌++◌, OnOk, string_bytes};
ghost use Rattle.plan_rules.specs.Held.{AllFit, plan_of};
ghost use Rattle.plan_report.specs.Figures.{number_of, row_count};
ghost use Rattle.plan_report.specs.Numbers.{comma_before, list_entries, list_entry, named_list, quantity};

use crate::figures::{Series, key_of, number_of};
use lot_model::Instance;
use plan_rules::Plan;
use std::alloc::AllocError;

// The largest whole number up to which all are kept by readers that hold JSON numbers in 64 bits of floating point: 2^53.
pub(crate) const LARGEST_EXACT: u128 = 9_007_199_254_740_992;

/// Adds a number: as a JSON number where it is at most `LARGEST_EXACT`, and else as a text of its digits.
#[tactic(auto, unfolding(crate::specs::Numbers::quantity, crate::specs::Numbers::in_quotes))]
pub(crate) fn add_quantity(text: &mut String, number: u128) -> Result<(), AllocError>
    ensures { OnOk result (string_bytes text.new ≡ string_bytes text.old ++ quantity number) }
{
    if number <= LARGEST_EXACT {
        write!(text, "{number}")?;
        return Ok(());
    }
    write!(text, "\"{number}\"")?;
    Ok(())
}

/// Adds a comma before each entry of a list but the first.
#[tactic(auto, unfolding(crate::specs::Numbers::comma_before))]
pub(crate) fn add_comma(text: &mut String, place: u32) -> Result<(), AllocError>
    ensures { OnOk result (string_bytes text.new ≡ string_bytes text.old ++ comma_before place) }
{
    if place > 1 {
        text.push_str(",")?;
    }
    Ok(())
}

// Adds the entry of a period.
#[tactic(auto, unfolding(crate::specs::Numbers::list_entry))]
fn add_entry(text: &mut String, period: u32, number: u128) -> Result<(), AllocError>
    ensures { OnOk result (string_bytes text.new ≡ string_bytes text.old
        ++ (comma_before period ++ quantity number)) }
{
    add_comma(text, period)?;
    add_quantity(text, number)?;
    Ok(())
}

// Adds the entries of all periods.
#[tactic(auto, using(crate::proofs::Joins::join_more), unfolding(crate::specs::Numbers::list_entries, crate::specs::Numbers::list_entry))]
fn add_entries(
    text: &mut String,
    instance: &Instance,
    plan: &Plan,
    series: Series,
    row: u32,
) -> Result<(), AllocError>
    requires fits { AllFit instance.now plan.now }
    requires low { 1 ≤ row }
    requires high { row ≤ row_count instance.now series }
    ensures { OnOk result (string_bytes text.new ≡ string_bytes text.old
        ++ list_entries instance.now (plan_of plan.now) series row) }
{
    for period in 1..instance.periods() + 1 {
        let number = number_of(instance, plan, series, row, period);
        add_entry(text, period, number)?;
    }
    Ok(())
}

/// Adds a list with an entry for each period, after its key.
#[tactic(auto, unfolding(crate::specs::Numbers::named_list))]
pub(crate) fn add_named_list(
    text: &mut String,
    instance: &Instance,
    plan: &Plan,
    series: Series,
    row: u32,
) -> Result<(), AllocError>
    requires fits { AllFit instance.now plan.now }
    requires low { 1 ≤ row }
    requires high { row ≤ row_count instance.now series }
    ensures { OnOk result (string_bytes text.new ≡ string_bytes text.old
        ++ named_list instance.now (plan_of plan.now) series row) }
{
    let key = key_of(series);
    write!(text, "\"{key}\":[")?;
    add_entries(text, instance, plan, series, row)?;
    text.push_str("]")?;
    Ok(())
}
