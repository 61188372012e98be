//! Exact fractions of 128 bits: the arithmetic of the dual simplex.
//!
//! Family: numbers. It stands on `algebra` and `rational`; `tableau`, `least_index`, `lin_rows`, `ls_cuts`, `existence`
//! and the crates that solve or read linear programs stand on it.
//!
//! A `Frac` is in lowest terms with a denominator above 0, both at most 2^127 - 1 in absolute value,
//! and contracts see it as the rational number that it is. Each operation gives the exact number, or
//! None by a rule that its contract states; `compare` and `ceil` always answer. No call takes memory.
//!
//! `wide` has products of 256 bits, `divisor` the greatest common divisor, `steps` the checked steps
//! on whole numbers, `fraction` the type with its calls, and `denominators` the least common denominator of a list.
#![tactic(auto)]

mod denominators;
mod divisor;
mod fraction;
pub mod plain;
mod ratio;
mod signs;
mod steps;
mod wide;

pub use denominators::common_denominator;
pub use fraction::Frac;
pub use ratio::Ratio;
