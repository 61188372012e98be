//! The limit of a search's tree, with its name.

/// Most nodes of the tree of a certificate that a search makes: 2^45. Each takes some bytes, and no machine has memory
/// for more.
pub const MAX_NODES: u64 = 35_184_372_088_832;
