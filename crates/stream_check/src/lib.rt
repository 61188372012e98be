//! Certificates in files: what one claims, and whether it is accepted, line by line.
//!
//! Family: proofs. It stands on `cert_stream`, which reads a certificate's file line by line, and on `cert_checker`,
//! which says what one cut and one leaf mean; `lotplan` stands on it.
#![tactic(auto)]

mod fault;
mod nodes;
mod pass;
mod rows;
mod streams;
mod units;

pub use fault::StreamFault;
pub use streams::{check_stream, read_claim};
