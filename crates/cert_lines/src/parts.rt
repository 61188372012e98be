// What the lines of a certificate speak of.
ghost use Rattle.std.specs.Prelude.{◌≡◌};
ghost use Rattle.cert_lines.specs.Shapes.{cut_parts, cut_shape, leaf_groups, leaf_lists, leaf_parts, leaf_shape, list_shape};
ghost use Rattle.std.specs.Prelude.{map};

use item_groups::Group;
use lin_rows::{Potentials, Prices, RowName};

/// What a certificate proves of an instance.
#[derive(Clone, Copy, Debug, PartialEq, Eq)]
pub enum Claim {
    /// The plan that goes with it costs this amount, and no feasible plan costs less.
    Optimal(u128),
    /// No plan is feasible.
    Infeasible,
    /// Every feasible plan costs at least this amount.
    Bound(u128),
}

/// A multiple of a row.
#[derive(Clone, Copy, Debug, PartialEq, Eq)]
pub struct Part {
    /// The row.
    pub row: RowName,
    /// How many times it is taken.
    pub times: i128,
}

/// A row that holds at every feasible plan, by how it is made. Items, periods and cuts are counted from 1.
#[derive(Debug, Drop)]
pub enum Cut {
    /// The inequality of Barany, Van Roy and Wolsey (1984), for periods up to a last one.
    Ls {
        /// The item.
        item: u32,
        /// The last period.
        last: u32,
        /// For each period up to the last whether its setup stands for it.
        chosen: Vec<bool>,
    },
    /// A price row.
    Price {
        /// The item.
        item: u32,
        /// The lists.
        prices: Prices,
    },
    /// A block row.
    Block {
        /// The item.
        item: u32,
        /// The lists.
        potentials: Potentials,
    },
    /// A sum of rows, divided and rounded up.
    Round {
        /// The divisor.
        divisor: u64,
        /// The rows and how many times each is taken.
        parts: Vec<Part>,
    },
}

/// The kinds of rows that an item or a resource has one of in each period.
#[derive(Clone, Copy, Debug, PartialEq, Eq)]
pub enum ListKind {
    /// The balances of an item.
    Balance,
    /// The rows by which nothing of an item is made without a setup.
    Link,
    /// The capacities of a resource.
    Capacity,
    /// The rows by which an item has at most one setup in a period.
    Top,
    /// The least lots of an item.
    Least,
    /// The rows by which lots of an item that come too late aren't made.
    Late,
}

/// Multiples of rows of one kind of an item or a resource, one for each period.
#[derive(Debug, Drop)]
pub struct PartList {
    /// The kind of the rows.
    pub kind: ListKind,
    /// The item, or the resource, counted from 1.
    pub index: u32,
    /// How many times the row of each period is taken, from the first on.
    pub times: Vec<i128>,
}

/// What a leaf proves of the plans that lie in it.
#[derive(Debug, Drop)]
pub enum Leaf {
    /// Each of them costs at least the right side of a sum of rows, divided by the denominator.
    Linear {
        /// The denominator.
        den: i128,
        /// The rows and how many times each is taken.
        parts: Vec<Part>,
    },
    /// There is none, since a sum of rows can't hold.
    Farkas {
        /// The rows and how many times each is taken.
        parts: Vec<Part>,
    },
    /// Quantities and setups have one value each.
    Point,
    /// Each of them costs at least the right side of a sum of rows and the numbers of groups, divided by the
    /// denominator; or there is none, where the denominator is 0.
    Reduced {
        /// The denominator.
        den: u64,
        /// The rows and how many times each is taken.
        parts: Vec<Part>,
        /// Further rows, by lists.
        lists: Vec<PartList>,
        /// Groups of items whose reduced costs have least numbers.
        groups: Vec<Group>,
    },
}

impl Cut {
    /// The parts whose lines follow the first one: those of a cut by rounding, and none of another.
    pub fn parts(&self) -> &[Part]
        ensures { result.now ≡ cut_parts (cut_shape self.now) }
    {
        match self {
            Cut::Ls { .. } => &[],
            Cut::Price { .. } => &[],
            Cut::Block { .. } => &[],
            Cut::Round { parts, .. } => parts,
        }
    }
}

impl Leaf {
    /// The parts whose lines follow the first one.
    pub fn parts(&self) -> &[Part]
        ensures { result.now ≡ leaf_parts (leaf_shape self.now) }
    {
        match self {
            Leaf::Linear { parts, .. } => parts,
            Leaf::Farkas { parts } => parts,
            Leaf::Point => &[],
            Leaf::Reduced { parts, .. } => parts,
        }
    }

    /// The lists whose lines follow those of the parts.
    pub fn lists(&self) -> &[PartList]
        ensures { map list_shape result.now ≡ leaf_lists (leaf_shape self.now) }
    {
        match self {
            Leaf::Linear { .. } => &[],
            Leaf::Farkas { .. } => &[],
            Leaf::Point => &[],
            Leaf::Reduced { lists, .. } => lists,
        }
    }

    /// The groups whose lines follow those of the lists.
    pub fn groups(&self) -> &[Group]
        ensures { result.now ≡ leaf_groups (leaf_shape self.now) }
    {
        match self {
            Leaf::Linear { .. } => &[],
            Leaf::Farkas { .. } => &[],
            Leaf::Point => &[],
            Leaf::Reduced { groups, .. } => groups,
        }
    }
}
