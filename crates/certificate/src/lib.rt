//! Certificates: proofs by cuts and a tree of branches, and their text.
//!
//! A `Certificate` has a `Claim`, a list of `Cut`s and a `Tree`: each branch splits the range of a column
//! in two, and each leaf says what it proves, by multiples of rows and from version 3 of the text on also by groups
//! of items. `nodes` and `longest` measure a tree, and `is_writable` tells whether a certificate is within the limits
//! of its text. `write_certificate` gives that text, and `read_certificate` gives the certificate of a text, or a
//! `CertTextFault` with the first line at which something is wrong. `read_head` reads one of the first three lines
//! by itself, and `read_line` a later one. That no text means two things is `texts_mean_one_thing`.
//!
//! Family: proofs. It stands on `cert_lines`, whose lines it puts together and whose calls it hands on, on
//! `item_groups` and on `lin_rows`; the other crates of proofs above it, the search and `lotplan` stand on it.
#![tactic(auto)]

mod counts;
mod dues;
mod fault;
mod laws;
mod limits;
mod line_numbers;
mod opening;
mod reading;
mod rest;
mod tree;
mod writing;

pub use cert_lines::{
    CertLine, Claim, Cut, FIRST_CERT_VERSION, HeadLine, LOTS_CERT_VERSION, Leaf, LineFault,
    ListKind, MAX_BRANCHES, MAX_CERT_VERSION, MAX_CUTS, MAX_DIVISOR, MAX_GROUPS, MAX_LINE,
    MAX_LISTS, MAX_PARTS, MAX_ROUND_PARTS, Part, PartList, REDUCED_CERT_VERSION, copy_cut,
    copy_leaf, lines_mean_one_thing, read_head, read_line,
};
pub use counts::{cut_lines_count, leaf_lines_count, longest, nodes};
pub use dues::{Dues, Misfit};
pub use fault::CertTextFault;
pub use item_groups::{ChainLink, Group};
pub use laws::{shapes_are_counted, shapes_are_same, texts_mean_one_thing};
pub use limits::{has_leaf_lines, is_writable};
pub use line_numbers::{CLAIM_LINE, FIRST_CUT_LINE};
pub use reading::read_certificate;
pub use tree::{Certificate, Tree};
pub use writing::write_certificate;
