// What is wrong with a data file.
use std::alloc::{AllocError, AllocFailed};
use thiserror::Error;

/// Why a data file can't be run.
#[derive(Debug, Drop, Error)]
pub enum Fault {
    /// The file can't be read.
    #[error("it can't be read")]
    Unread,
    /// It is no TOML.
    #[error("no TOML: {0}")]
    NoToml(String),
    /// What stands under this key is of another kind.
    #[error("`{0}` is of another kind")]
    Kind(&'static str),
    /// There is no such key.
    #[error("there is no `{0}`")]
    Missing(&'static str),
    /// A key that there is not.
    #[error("the key `{0}` is unknown")]
    Unknown(String),
    /// There is no text of this name.
    #[error("there is no text `{0}`")]
    NoText(String),
    /// A text has no such lines.
    #[error("the text has no such lines")]
    NoLines,
    /// Digits that write no bytes.
    #[error("the digits of `hex` write no bytes")]
    NoBytes,
    /// There are more calls than are tried.
    #[error("there are too many calls")]
    Calls,
    /// Memory ran out.
    #[error("out of memory")]
    Memory,
}

impl From<AllocError> for Fault {
    fn from(_: AllocError) -> Fault {
        Fault::Memory
    }
}

impl<T: Drop> From<AllocFailed<T>> for Fault {
    fn from(_: AllocFailed<T>) -> Fault {
        Fault::Memory
    }
}
