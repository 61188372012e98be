// The sentence of each code, where the file doesn't show the fault.
use lot_draft::ModelCode;

/// What a code means, and how to mend it.
pub fn general(code: ModelCode) -> &'static str {
    match code {
        ModelCode::NotToml => {
            "this is no TOML document: a bracket, a quote or a comma is missing, or it isn't UTF-8."
        }
        ModelCode::UnknownKey => {
            "a table has a key that isn't known there; lead, min_lot and max_lot want version = 2."
        }
        ModelCode::MissingKey => "a key is missing that each table of its kind must have.",
        ModelCode::WrongKind => {
            "a value is of another kind: amounts are whole numbers without quotes and points."
        }
        ModelCode::OutOfRange => "a number, or how many tables there are, is out of its range.",
        ModelCode::WrongLength => {
            "a list doesn't have one number for each period; one number alone stands for all periods."
        }
        ModelCode::BadName => {
            "a name has 1 to 32 of the letters a to z and A to Z, digits, '_', '-' and '.'."
        }
        ModelCode::RepeatedName => {
            "two items or two resources have one name, or a list names one thing twice."
        }
        ModelCode::UnknownName => "needs or uses names an item or a resource that isn't there.",
        ModelCode::Cycle => "an item goes into itself, by way of others: take a line out of needs.",
        ModelCode::BacklogOnComponent => {
            "an item that goes into others has a backlog_cost: only what is sold may be late."
        }
        ModelCode::QuantityBound => {
            "demand multiplied through needs is more than 10^12 units: choose larger units."
        }
        ModelCode::EndsCrossed => "end_min is above end_max.",
        ModelCode::Version => "version is 1 or 2; upgrade takes a model of version 1.",
        ModelCode::LotsCrossed => "min_lot is above max_lot.",
    }
}
