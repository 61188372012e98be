//! The file of a certificate, line by line, without a tree in memory.
//!
//! `read_claim` goes over the file once and gives the claim of the certificate whose text it is, or a `ClaimFault`.
//! Inside, `lines` has the reader of lines, which fetches the file piece by piece, `values` the values of lines, and
//! `heads` the first three. `specs/Reader` has the words in which contracts speak of a pass. That lines which are
//! taken as they are needed are a certificate's is `taken_are_bodies`.
//!
//! Family: proofs. It stands on `lot_io`, whose shelves have the file, and on `cert_lines` and `certificate`, whose
//! lines and grammar it reads; `stream_check` and `answers_exist` stand on it.
#![tactic(auto)]

mod claim;
mod fault;
mod heads;
mod laws;
mod limits;
mod lines;
mod values;

pub use claim::read_claim;
pub use fault::ClaimFault;
pub use heads::{Heads, read_heads};
pub use laws::taken_are_bodies;
pub use limits::MAX_BYTES;
pub use lines::{LineReader, Next};
pub use values::{Value, next_head, next_value};
