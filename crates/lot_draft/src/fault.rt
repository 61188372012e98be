// Why a model is refused, and where.
ghost use Rattle.std.specs.Prelude.{◌≡◌, Some};
ghost use Rattle.lot_draft.specs.Faults.{code_text, fault_text, key_text, place_text};

use std::fmt;
use thiserror::Error;

/// A rule that a model breaks.
#[derive(Clone, Copy, Debug, PartialEq, Eq)]
pub enum ModelCode {
    /// M1: the bytes are no TOML document in UTF-8.
    NotToml,
    /// M2: a table has a key that it can't have.
    UnknownKey,
    /// M3: a table lacks a key.
    MissingKey,
    /// M4: a value is of another kind.
    WrongKind,
    /// M5: a number or a count is out of its range.
    OutOfRange,
    /// M6: a list has not one entry for each period.
    WrongLength,
    /// M7: a name is empty, too long or has a character that it can't have.
    BadName,
    /// M8: a name stands twice.
    RepeatedName,
    /// M9: there is no item or resource of this name.
    UnknownName,
    /// M10: an item is its own component.
    Cycle,
    /// M11: a component has a backlog cost.
    BacklogOnComponent,
    /// M12: so much of an item may be needed that it can't be counted.
    QuantityBound,
    /// M13: the least end stock is above the largest.
    EndsCrossed,
    /// M14: the model is of another version.
    Version,
    /// M15: the least lot is above the largest.
    LotsCrossed,
}

/// Where a rule is broken. Resources, items and lines are counted from 1.
#[derive(Clone, Copy, Debug, PartialEq, Eq)]
pub enum Place {
    /// The document itself.
    Root,
    /// A resource.
    Resource(u32),
    /// An item.
    Item(u32),
    /// A line of the components of an item.
    Need(u32, u32),
    /// A line of the resources of an item.
    Usage(u32, u32),
}

/// A key of a model.
#[derive(Clone, Copy, Debug, PartialEq, Eq)]
pub enum Key {
    /// `version`
    Version,
    /// `periods`
    Periods,
    /// `resource`, of the document or of a line of `uses`
    Resource,
    /// `item`, of the document or of a line of `needs`
    Item,
    /// `name`
    Name,
    /// `capacity`
    Capacity,
    /// `demand`
    Demand,
    /// `unit_cost`
    UnitCost,
    /// `setup_cost`
    SetupCost,
    /// `hold_cost`
    HoldCost,
    /// `backlog_cost`
    BacklogCost,
    /// `opening`
    Opening,
    /// `end_min`
    EndMin,
    /// `end_max`
    EndMax,
    /// `lead`
    Lead,
    /// `min_lot`
    MinLot,
    /// `max_lot`
    MaxLot,
    /// `needs`
    Needs,
    /// `uses`
    Uses,
    /// `quantity`
    Quantity,
    /// `unit`
    Unit,
    /// `setup`
    Setup,
}

/// The first rule that a model breaks, with its place, and its key and period where it has them.
#[derive(Clone, Copy, Debug, PartialEq, Eq, Error)]
pub struct ModelFault {
    /// The rule.
    pub code: ModelCode,
    /// Where it is broken.
    pub place: Place,
    /// The key whose value breaks it.
    pub key: Option<Key>,
    /// The period of the entry that breaks it.
    pub period: Option<u64>,
}

impl fmt::Display for ModelCode {
    ghost output = { λ code. Some (code_text code) };

    fn fmt<W: fmt::Write>(&self, f: &mut fmt::Formatter<W>) -> fmt::Result {
        f.write_str(match self {
            ModelCode::NotToml => "M1",
            ModelCode::UnknownKey => "M2",
            ModelCode::MissingKey => "M3",
            ModelCode::WrongKind => "M4",
            ModelCode::OutOfRange => "M5",
            ModelCode::WrongLength => "M6",
            ModelCode::BadName => "M7",
            ModelCode::RepeatedName => "M8",
            ModelCode::UnknownName => "M9",
            ModelCode::Cycle => "M10",
            ModelCode::BacklogOnComponent => "M11",
            ModelCode::QuantityBound => "M12",
            ModelCode::EndsCrossed => "M13",
            ModelCode::Version => "M14",
            ModelCode::LotsCrossed => "M15",
        })
    }
}

impl fmt::Display for Place {
    ghost output = { λ place. Some (place_text place) };

    fn fmt<W: fmt::Write>(&self, f: &mut fmt::Formatter<W>) -> fmt::Result {
        match self {
            Place::Root => f.write_str("root"),
            Place::Resource(resource) => write!(f, "resource {resource}"),
            Place::Item(item) => write!(f, "item {item}"),
            Place::Need(item, line) => write!(f, "item {item} needs {line}"),
            Place::Usage(item, line) => write!(f, "item {item} uses {line}"),
        }
    }
}

impl Key {
    /// The key as it stands in a model.
    pub fn name(self) -> &'static str
        ensures { result.now ≡ key_text self }
    {
        match self {
            Key::Version => "version",
            Key::Periods => "periods",
            Key::Resource => "resource",
            Key::Item => "item",
            Key::Name => "name",
            Key::Capacity => "capacity",
            Key::Demand => "demand",
            Key::UnitCost => "unit_cost",
            Key::SetupCost => "setup_cost",
            Key::HoldCost => "hold_cost",
            Key::BacklogCost => "backlog_cost",
            Key::Opening => "opening",
            Key::EndMin => "end_min",
            Key::EndMax => "end_max",
            Key::Lead => "lead",
            Key::MinLot => "min_lot",
            Key::MaxLot => "max_lot",
            Key::Needs => "needs",
            Key::Uses => "uses",
            Key::Quantity => "quantity",
            Key::Unit => "unit",
            Key::Setup => "setup",
        }
    }
}

impl fmt::Display for Key {
    ghost output = { λ key. Some (key_text key) };

    fn fmt<W: fmt::Write>(&self, f: &mut fmt::Formatter<W>) -> fmt::Result {
        let key = *self;
        f.write_str(key.name())
    }
}

// By hand: its text is promised, and a derived message has no contract.
impl fmt::Display for ModelFault {
    ghost output = { λ fault. Some (fault_text fault) };

    fn fmt<W: fmt::Write>(&self, f: &mut fmt::Formatter<W>) -> fmt::Result {
        let (code, place) = (self.code, self.place);
        write!(f, "{code} {place}")?;
        if let Some(key) = self.key {
            write!(f, " {key}")?;
        }
        if let Some(period) = self.period {
            write!(f, " period {period}")?;
        }
        Ok(())
    }
}
