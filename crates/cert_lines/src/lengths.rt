// How long lines are.
ghost use Rattle.std.specs.Prelude.{◌≡◌, ◌≤◌, ◌<◌, ◌*◌, ◌^◌, length, decimal};
ghost use Rattle.std.specs.Fmt.{signed_decimal};
ghost use Rattle.lin_rows.specs.Texts.{column_text, name_text, one_text, two_text};
ghost use Rattle.std.specs.List.{All};
ghost use Rattle.cert_lines.specs.Text.{bits_text, block_line, branch_line, farkas_line, group_line, kind_text, linear_line, link_text, list_line, list_text, ls_line, part_line, price_line, reduced_line, round_line, shares_text, signed_list_text};
ghost use Rattle.cert_lines.specs.Limits.{Is32, Is64};
ghost use Rattle.cert_lines.specs.Line.{AreCosts, ArePriceLists, HasSmallLinks, IsSmallColumn, IsSmallGroup, IsSmallName};
ghost use Rattle.cert_lines.specs.Shapes.{block_lists, list_shape, price_lists};

use crate::{ListKind, Part, PartList};
use item_groups::{ChainLink, Group, Shares};
use lin_rows::{Column, Potentials, Prices, RowName};

// How many digits a number has.
fn digits(number: u128) -> u128
    ensures value { result ≡ length (decimal number) }
    ensures small { result ≤ 39 }
{
    let mut rest = number;
    let mut count = 1u128;
    while rest >= 10 {
        rest /= 10;
        count += 1;
    }
    count
}

// The length of a number after a space.
fn one_length(number: u128) -> u128
    ensures value { result ≡ length (one_text number) }
    ensures small { result ≤ 40 }
{
    1 + digits(number)
}

// The length of a number with its sign.
fn signed_length(number: i128) -> u128
    ensures value { result ≡ length (signed_decimal number) }
    ensures small { result ≤ 40 }
{
    let digits = digits(number.unsigned_abs());
    if number < 0 { digits + 1 } else { digits }
}

// The length of numbers, each after a space.
fn list_length(list: &[u64]) -> u128
    ensures value { result ≡ length (list_text list.now) }
    ensures small { result ≤ 40 * length list.now }
    ensures fits { All Is64 list.now }
{
    let mut sum = 0u128;
    for number in list {
        sum += one_length(u128::from(*number));
    }
    sum
}

// The length of wide numbers, each after a space.
fn wide_list_length(list: &[u128]) -> u128
    ensures value { result ≡ length (list_text list.now) }
    ensures small { result ≤ 40 * length list.now }
{
    let mut sum = 0u128;
    for number in list {
        sum += one_length(*number);
    }
    sum
}

// The length of a row's name.
fn name_length(name: RowName) -> u128
    ensures value { result ≡ length (name_text name) }
    ensures small { result ≤ 90 }
    ensures fits { IsSmallName name }
{
    match name {
        RowName::Balance(item, period) => 7 + two_length(item, period),
        RowName::Link(item, period) => 4 + two_length(item, period),
        RowName::Capacity(resource, period) => 8 + two_length(resource, period),
        RowName::EndMin(item) | RowName::EndMax(item) => 6 + one_length(u128::from(item)),
        RowName::Top(item, period) => 3 + two_length(item, period),
        RowName::Least(item, period) => 5 + two_length(item, period),
        RowName::Late(item, period) => 4 + two_length(item, period),
        RowName::Path(number) => 4 + one_length(u128::from(number)),
        RowName::Cut(number) => 3 + one_length(u128::from(number)),
    }
}

// The length of two numbers, each after a space.
fn two_length(first: u32, second: u32) -> u128
    ensures value { result ≡ length (two_text first second) }
    ensures small { result ≤ 80 }
{
    one_length(u128::from(first)) + one_length(u128::from(second))
}

/// The length of the line of a part.
pub fn part_length(part: Part) -> u128
    ensures value { result ≡ length (part_line part) }
    ensures fits { IsSmallName part.row }
{
    5 + name_length(part.row) + 1 + signed_length(part.times)
}

// The length of a column.
fn column_length(column: Column) -> u128
    ensures value { result ≡ length (column_text column) }
    ensures small { result ≤ 90 }
    ensures fits { IsSmallColumn column }
{
    match column {
        Column::X { item, period }
        | Column::Y { item, period }
        | Column::S { item, period }
        | Column::R { item, period } => 1 + two_length(item, period),
    }
}

/// The length of the line of a branch.
pub fn branch_length(column: Column, at: u64) -> u128
    ensures value { result ≡ length (branch_line column at) }
    ensures fits { IsSmallColumn column }
{
    7 + column_length(column) + one_length(u128::from(at))
}

// The length of truth values as digits.
fn bits_length(bits: &[bool]) -> u128
    ensures value { result ≡ length (bits_text bits.now) }
    ensures small { result < 2 ^ 64 }
{
    bits.len() as u128
}

/// The length of the line of an inequality by setups.
pub fn ls_length(item: u32, last: u32, chosen: &[bool]) -> u128
    ensures { result ≡ length (ls_line item last chosen.now) }
{
    3 + two_length(item, last) + bits_length(chosen)
}

/// The length of the line of a price row.
pub fn price_length(item: u32, prices: &Prices) -> u128
    ensures value { result ≡ length (price_line item (price_lists prices.now)) }
    ensures fits { ArePriceLists (price_lists prices.now) }
{
    13 + one_length(u128::from(item))
        + list_length(&prices.price)
        + list_length(&prices.unit)
        + list_length(&prices.hold)
        + list_length(&prices.back)
}

/// The length of the line of a block row.
pub fn block_length(item: u32, potentials: &Potentials) -> u128
    ensures value { result ≡ length (block_line item (block_lists potentials.now)) }
    ensures fits { AreCosts (block_lists potentials.now) }
{
    15 + one_length(u128::from(item))
        + list_length(&potentials.setup)
        + list_length(&potentials.unit)
        + list_length(&potentials.hold)
        + list_length(&potentials.back)
        + wide_list_length(&potentials.steps)
}

/// The length of the first line of a cut by rounding.
pub fn round_length(divisor: u64, parts: &[Part]) -> u128
    ensures { result ≡ length (round_line divisor (length parts.now)) }
{
    5 + one_length(u128::from(divisor)) + one_length(parts.len() as u128)
}

/// The length of the first line of a leaf that bounds the cost.
pub fn linear_length(den: i128, parts: &[Part]) -> u128
    ensures { result ≡ length (linear_line den (length parts.now)) }
{
    7 + signed_length(den) + one_length(parts.len() as u128)
}

/// The length of the first line of a leaf without plans.
pub fn farkas_length(parts: &[Part]) -> u128
    ensures { result ≡ length (farkas_line (length parts.now)) }
{
    6 + one_length(parts.len() as u128)
}

/// The length of the first line of a leaf over reduced costs.
pub fn reduced_length(den: u64, parts: &[Part], lists: &[PartList], groups: &[Group]) -> u128
    ensures { result
        ≡ length (reduced_line den (length parts.now) (length lists.now) (length groups.now)) }
{
    7 + one_length(u128::from(den))
        + one_length(parts.len() as u128)
        + one_length(lists.len() as u128)
        + one_length(groups.len() as u128)
}

// The length of the name of a kind of rows.
fn kind_length(kind: ListKind) -> u128
    ensures value { result ≡ length (kind_text kind) }
    ensures small { result ≤ 8 }
{
    match kind {
        ListKind::Balance => 7,
        ListKind::Link => 4,
        ListKind::Capacity => 8,
        ListKind::Top => 3,
        ListKind::Least => 5,
        ListKind::Late => 4,
    }
}

// The length of numbers with their signs, each after a space.
fn signed_list_length(list: &[i128]) -> u128
    ensures value { result ≡ length (signed_list_text list.now) }
    ensures small { result ≤ 41 * length list.now }
{
    let mut sum = 0u128;
    for number in list {
        sum += 1 + signed_length(*number);
    }
    sum
}

/// The length of the line of a list of multiples.
pub fn parts_length(list: &PartList) -> u128
    ensures value { result ≡ length (list_line (list_shape list.now)) }
    ensures fits { Is32 list.now.index }
{
    let index = list.index;
    6 + kind_length(list.kind) + one_length(u128::from(index)) + signed_list_length(&list.times)
}

// The length of an item of a chain with its opening price.
fn link_length(link: ChainLink) -> u128
    ensures value { result ≡ length (link_text link) }
    ensures small { result ≤ 80 }
{
    one_length(u128::from(link.item)) + one_length(link.opening_price)
}

// The length of an item with its shares.
fn shares_length(item: u32, shares: &Shares) -> u128
    ensures value { result ≡ length (shares_text item shares.now) }
    ensures small { result < 2 ^ 100 }
    ensures fits { All Is64 shares.now }
{
    one_length(u128::from(item)) + list_length(shares.as_slice())
}

/// The length of the line of a group.
pub fn group_length(group: &Group) -> u128
    ensures value { result ≡ length (group_line group.now) }
    ensures fits { HasSmallLinks group.now → IsSmallGroup group.now }
{
    match group {
        Group::Item { item } => 4 + one_length(u128::from(*item)),
        Group::Late { item, shares } => 4 + shares_length(*item, shares),
        Group::Quantities { item } => 10 + one_length(u128::from(*item)),
        Group::LateQuantities { item, shares } => 15 + shares_length(*item, shares),
        Group::Pair { low, top } => 4 + link_length(*low) + link_length(*top),
        Group::Triple { low, mid, top } => {
            6 + link_length(*low) + link_length(*mid) + link_length(*top)
        }
    }
}
