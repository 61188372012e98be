//! A model file as the person who wrote it sees it: what stands at its places, in which lines, and how it is shown.
//!
//! Family: commands. It stands on `lot_draft` for keys, places and codes, and on `toml` for the document; `explain_model`
//! stands on it.
//!
//! `read_refusal` reads the line that the program prints on a model that it refuses. A `ModelFile` gives the tables, names and
//! values at the places of a model, and `line_of` the line at which a key stands. `add_head` writes where a fault is: the file,
//! the line, and items and resources by name. `Shown` and `Name` show texts of a file on a terminal.
#![tactic(auto)]

mod head;
mod lines;
mod model_file;
mod refusal;
mod shown;

pub use head::{add_head, add_mend};
pub use lines::line_of;
pub use model_file::{
    ModelFile, element, name_key, name_of, needs_of, number_at, part_of, place_named,
};
pub use refusal::{Refusal, key_of, read_refusal};
pub use shown::{Name, Shown, cut, is_plain, visible, whole};
