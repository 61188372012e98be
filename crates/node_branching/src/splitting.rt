// Which range is split, and where.
ghost use Rattle.std.specs.Prelude.{◌≡◌, ◌≤◌, ◌<◌, ◌+◌, ℕ, IfSome, length};
ghost use Rattle.lot_sizing.specs.Problem.{item_count};
ghost use Rattle.tree_search.specs.Ranges.{AreOrdered, IsAllowed, IsPoint, IsSplitAt};
ghost use Rattle.node_domains.specs.Nodes.{IsOpenAt, choice_count, choice_place};

use crate::choosing;
use crate::notes::Note;
use lot_model::Instance;
use node_domains::{column_of, first_place};
use tree_search::{Range, Split, middle};

// A place, and what a branch there is worth.
#[derive(Clone, Copy)]
struct Choice {
    place: usize,
    worth: i128,
}

// What a branch on the setup of an item in a period is worth by the averages of a note.
fn worth_of(instance: &Instance, note: &Note, item: u32, period: u32) -> i128
    requires item_low { 1 ≤ item }
    requires item_high { item ≤ item_count instance.now }
    requires low { 1 ≤ period }
    requires high { period ≤ instance.now.periods }
{
    choosing::worth_of(
        &note.average,
        instance.setup_cost(item, period),
        item,
        period,
    )
}

// The better one of a choice and of a place, where its range leaves more than one number.
fn better_choice(
    ranges: &[Range],
    best: Option<Choice>,
    place: usize,
    worth: i128,
) -> Option<Choice>
    requires inside { place < length ranges.now }
    requires best { IfSome best (λ choice. IsOpenAt ranges.now choice.place) }
    ensures { IfSome result (λ choice. IsOpenAt ranges.now choice.place) }
{
    let range = ranges[place];
    let least = match best {
        Some(choice) => choice.worth,
        None => 0,
    };
    if range.low < range.high && worth > least {
        return Some(Choice { place, worth });
    }
    best
}

// The better one of a choice and of those of the open setups of an item, whose ranges begin at this place.
fn best_of_item(
    instance: &Instance,
    ranges: &[Range],
    note: &Note,
    item: u32,
    first: usize,
    before: Option<Choice>,
) -> Option<Choice>
    requires item_low { 1 ≤ item }
    requires item_high { item ≤ item_count instance.now }
    requires inside { first + instance.now.periods ≤ length ranges.now }
    requires before { IfSome before (λ choice. IsOpenAt ranges.now choice.place) }
    ensures { IfSome result (λ choice. IsOpenAt ranges.now choice.place) }
{
    let mut best = before;
    for number in 0..instance.periods() {
        let worth = worth_of(instance, note, item, number + 1);
        best = better_choice(ranges, best, first + number as usize, worth);
    }
    best
}

// The open setup on which a branch is worth most by averages, if one isn't whole.
fn worthiest(instance: &Instance, ranges: &[Range], note: &Note) -> Option<Choice>
    requires { length ranges.now ≡ choice_count instance.now }
    ensures { IfSome result (λ choice. IsOpenAt ranges.now choice.place) }
{
    let periods = instance.periods() as usize;
    let setups = instance.items() as usize * periods;
    let mut best = None;
    for item in 1..instance.items() + 1 {
        let first = setups + (item - 1) as usize * periods;
        best = best_of_item(instance, ranges, note, item, first, best);
    }
    best
}

// The place of a setup, where it is open.
fn open_choice(instance: &Instance, ranges: &[Range], choice: choosing::Choice) -> Option<usize>
    ensures { IfSome result (IsOpenAt ranges.now) }
{
    let items = instance.items() as usize;
    let periods = instance.periods() as usize;
    let before = (choice.item as usize).wrapping_sub(1).wrapping_add(items);
    let place = before
        .wrapping_mul(periods)
        .wrapping_add((choice.period as usize).wrapping_sub(1));
    if place < ranges.len() {
        let range = ranges[place];
        if range.low < range.high {
            return Some(place);
        }
    }
    None
}

// The place of the setup that was chosen at the node of a note, and otherwise of the one on which a branch is worth most.
fn place_by(instance: &Instance, ranges: &[Range], note: &Note) -> Option<usize>
    requires { length ranges.now ≡ choice_count instance.now }
    ensures { IfSome result (IsOpenAt ranges.now) }
{
    if let Some(choice) = note.choice {
        let place = open_choice(instance, ranges, choice);
        if place.is_some() {
            return place;
        }
    }
    match worthiest(instance, ranges, note) {
        Some(choice) => Some(choice.place),
        None => None,
    }
}

// The place to branch on by the note of a node, where there is a note.
fn noted_place(instance: &Instance, ranges: &[Range], note: Option<&Note>) -> Option<usize>
    requires { length ranges.now ≡ choice_count instance.now }
    ensures { IfSome result (IsOpenAt ranges.now) }
{
    match note {
        Some(note) => place_by(instance, ranges, note),
        None => None,
    }
}

// The place that a note tells, and where none does, the first one.
fn place_to_split(instance: &Instance, ranges: &[Range], note: Option<&Note>) -> usize
    requires size { length ranges.now ≡ choice_count instance.now }
    requires ordered { AreOrdered ranges.now }
    requires open { IsPoint ranges.now → ⊥ }
    ensures { IsOpenAt ranges.now result }
{
    match noted_place(instance, ranges, note) {
        Some(place) => place,
        None => first_place(instance, ranges),
    }
}

/// The branch at a node, in the middle of what is left: on the setup that its note has chosen, where that leaves more than one
/// number; else on the open setup whose average in the note is least whole, times what it costs; and where all are whole or
/// there is no note, on setups before quantities, those of early periods first.
///
/// The list has a range for each quantity and each setup of the instance, none of them upside down, and some range leaves more
/// than one number. It takes no memory.
pub fn split_of(instance: &Instance, ranges: &[Range], note: Option<&Note>) -> Split
    requires size { length ranges.now ≡ choice_count instance.now }
    requires ordered { AreOrdered ranges.now }
    requires open { IsPoint ranges.now → ⊥ }
    ensures place { choice_place instance.now result.column ≡ result.place }
    ensures split { IsSplitAt ranges.now result.place result.at }
    ensures allowed { (depth : ℕ) → IsAllowed depth ranges.now result.place result.at }
{
    let place = place_to_split(instance, ranges, note);
    Split {
        column: column_of(instance, place),
        place,
        at: middle(ranges, place),
    }
}
