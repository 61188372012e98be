// What comes of planning on.
use crate::Rest;
use search_result::Found;

/// What comes of planning the later periods anew.
#[derive(Drop)]
pub enum Replanned {
    /// The start doesn't stand: no feasible plan agrees with it.
    NoStart,
    /// The start stands, and the later periods were searched.
    Planned {
        /// The later periods, and what the start costs.
        rest: Rest,
        /// What was found of the later periods.
        found: Found,
    },
}
