// The columns of the linear model.
ghost use Rattle.std.specs.Prelude.{Some};
ghost use Rattle.lin_rows.specs.Texts.{column_text};

use std::fmt;

/// What a plan has of an item in a period, both counted from 1. Columns are ordered by kind as they stand
/// here, then by item, then by period; their numbers, which `column_number` gives, rise in this order.
#[derive(Clone, Copy, Debug, PartialEq, Eq)]
pub enum Column {
    /// Units made.
    X {
        /// The item.
        item: u32,
        /// The period.
        period: u32,
    },
    /// The setup, 0 or 1.
    Y {
        /// The item.
        item: u32,
        /// The period.
        period: u32,
    },
    /// Units in stock at the end of the period.
    S {
        /// The item.
        item: u32,
        /// The period.
        period: u32,
    },
    /// Units owed at the end of the period, where the item has a backlog cost and the period isn't the
    /// last.
    R {
        /// The item.
        item: u32,
        /// The period.
        period: u32,
    },
}

impl fmt::Display for Column {
    ghost output = { λ column. Some (column_text column) };

    fn fmt<W: fmt::Write>(&self, f: &mut fmt::Formatter<W>) -> fmt::Result {
        match self {
            Column::X { item, period } => write!(f, "x {item} {period}"),
            Column::Y { item, period } => write!(f, "y {item} {period}"),
            Column::S { item, period } => write!(f, "s {item} {period}"),
            Column::R { item, period } => write!(f, "r {item} {period}"),
        }
    }
}
