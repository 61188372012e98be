//! Words for people on what `plan`, `bound` and `check` answer: why there is no plan, how wide a gap is, why a certificate was
//! rejected.
//!
//! `words_on_answer` gives a reason why a model has no plan where one item or one resource shows it, says how wide a gap is, and by the
//! `Course` of a search whether more nodes are worth a try.
//! `words_on_certificate` shows the line of a certificate at which something is wrong, and what that mostly comes from.
//!
//! Family: commands. It stands on `explain_lookup` and `lot_model`; `explain` stands on it. Nothing is proved of the words. A line of
//! another kind gets none.
#![tactic(auto)]

mod answer_words;
mod bounds;
mod certificate_words;
mod course;
mod gap;
mod needs;
mod reasons;
mod table;

pub use answer_words::words_on_answer;
pub use certificate_words::words_on_certificate;
pub use course::Course;
