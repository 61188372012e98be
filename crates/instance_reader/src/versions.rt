// The versions of models.

/// The first version: no lead times and no bounds on lots.
pub const FIRST_VERSION: u32 = 1;
/// The newest version that is read, and the one that is written.
pub const NEWEST_VERSION: u32 = 2;
/// Most periods of a model of the first version.
pub const FIRST_VERSION_PERIODS: u32 = 60;
