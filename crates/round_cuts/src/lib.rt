//! The rounding cut: a sum of multiples of rows, divided by a whole number and rounded up (Chvatal 1973,
//! Gomory 1958).
//!
//! Family: cuts. It stands on `algebra` and on `lin_rows`, whose rows it takes and gives; `cert_lines`, which
//! takes its largest divisor, the checker of certificates and the search stand on it.
//!
//! `round_row` takes rows and as many multipliers. Whatever values of at least 0 the columns have, a point at
//! which the rows hold meets their sum `sum a[j]*v[j] >= b`. So it meets `sum ceil(a[j]/q)*v[j] >= b/q`, and where
//! all values are whole, as in a plan, the left side is whole: it is at least `ceil(b/q)`.
//!
//! The terms of all rows are put into one list (`products`), which is sorted by column and then merged, so that each
//! column has one term (`merging`); these are divided and rounded (`rounding`).
#![tactic(auto)]

mod merging;
mod products;
mod rounding;

pub use rounding::{MAX_DIVISOR, round_row};
