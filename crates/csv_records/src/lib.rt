//! Records of CSV texts (RFC 4180): what plan files, schedules, pegs and tables of quantities have
//! in common.
//!
//! A text is read as the records that `csv` finds in it, with no header row set apart:
//! `all_records` gives them all, and `first_records` so many and no more, where a file that goes
//! on can only be wrong. `has_header` says whether they begin with a header. `field` gives a field
//! of a record by its number, `number` the number of 64 bits that a field holds, and `is_number`
//! says whether a field is what is written of a number.
//!
//! A text is written by a `RecordWriter`, the writer of `csv` over bytes in memory: `new_writer`
//! makes one, `add_record` writes a record from its fields with no memory of its own, and
//! `written` gives the bytes. A contract sees a writer as the list of the records that were
//! written. `plain_records_are_lines` says what the bytes are where no field needs quotes, and
//! `written_records_are_read` that the records are read back.
//!
//! Family: outside. It stands on `csv`, on `whole_numbers` for the numbers of fields and on
//! `lot_sizing` for names; `plan_file`, `pegging`, `lot_schedule`, `lot_quantities`, `existence`,
//! `answers_exist` and `explain_plan` stand on it.
#![tactic(auto)]

mod fields;
mod laws;
mod reading;
mod writing;

pub use fields::{field, has_header, is_number, number};
pub use laws::{plain_records_are_lines, written_records_are_read};
pub use reading::{all_records, first_records};
pub use writing::{RecordWriter, add_record, new_writer, written};
