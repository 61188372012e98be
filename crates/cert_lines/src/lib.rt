//! The lines of a certificate's text, one by one.
//!
//! `read_head` reads one of the first three lines, and `read_line` a later one: a `CertLine`, which is a `Cut`
//! of one line, the first line of a cut by rounding or of a `Leaf`, a `Part`, a `PartList`, a `Group`, a branch, or the
//! end. The calls `add_mark`, `add_claim`, `add_count`, `add_cut_line`, `add_leaf_line`, `add_part`, `add_list_line`,
//! `add_group_line` and `add_branch` write lines, and `is_small_claim`, `is_cut_line` and their kin tell whether the limits
//! of a line hold: `limits` has them. That no line means two things is `lines_mean_one_thing` and
//! `heads_mean_one_thing`; that a line has no line feed in it is `lines_have_no_feed` and `heads_have_no_feed`.
//!
//! Family: proofs. It stands on `lin_rows`, whose rows and columns lines name, on `item_groups` for the groups of items, on
//! `whole_numbers` for their numbers, and on `round_cuts`, whose largest divisor is theirs; `certificate`, the other crates
//! of proofs, the search and `lotplan` stand on it.
#![tactic(auto)]

mod copying;
mod fitting;
mod forms;
mod head;
mod laws;
mod lengths;
mod limits;
mod line;
mod lists;
mod parts;
mod reduced;
mod words;
mod writing;

pub use copying::{copy_cut, copy_leaf};
pub use fitting::{
    is_branch_line, is_cut_line, is_group_line, is_leaf_line, is_list_line, is_part_line,
    is_small_claim,
};
pub use head::{HeadLine, read_head};
pub use laws::{
    heads_have_no_feed, heads_mean_one_thing, lines_have_no_feed, lines_mean_one_thing,
};
pub use limits::{
    FIRST_CERT_VERSION, LOTS_CERT_VERSION, MAX_BRANCHES, MAX_CERT_VERSION, MAX_CUTS, MAX_GROUPS,
    MAX_LINE, MAX_LISTS, MAX_PARTS, MAX_ROUND_PARTS, REDUCED_CERT_VERSION,
};
pub use line::{CertLine, LineFault, read_line};
pub use parts::{Claim, Cut, Leaf, ListKind, Part, PartList};
pub use round_cuts::MAX_DIVISOR;
pub use writing::{
    add_branch, add_claim, add_count, add_cut_line, add_group_line, add_leaf_line, add_list_line,
    add_mark, add_part,
};
