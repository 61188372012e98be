// The commands, a file each.
pub mod bound;
pub mod check;
pub mod complete;
pub mod demo;
pub mod draw;
pub mod generate;
pub mod judge;
pub mod peg;
pub mod plan;
pub mod replanning;
pub mod reporting;
pub mod schedcheck;
pub mod schedule;
pub mod upgrade;
