// Why a text is no certificate's.

use std::alloc::{AllocError, AllocFailed};
use thiserror::Error;

/// Why a text is no certificate's: the first line at which something is wrong, counted from 1. A text that
/// ends too early is wrong at the line after its last.
#[derive(Clone, Copy, Debug, PartialEq, Eq, Error)]
pub enum CertTextFault {
    /// One of lines 1 to 3 is absent or isn't of its form.
    #[error("line {0}: absent, or not as a certificate begins")]
    Header(u64),
    /// A later line has no line feed, is too long, or has none of the forms.
    #[error("line {0}: no line feed, too long, or no form of a line")]
    Line(u64),
    /// The line has a form and another one is needed here, or the text ends before `end`, or something
    /// follows it.
    #[error("line {0}: another line is needed, or none")]
    Shape(u64),
    /// A branch has `MAX_BRANCHES` branches above it.
    #[error("line {0}: too many branches on a path")]
    Deep(u64),
    /// Memory ran out.
    #[error("out of memory")]
    Memory,
}

impl From<AllocError> for CertTextFault {
    ghost use Rattle.std.specs.Prelude.{◌≡◌};
    ghost use Rattle.certificate.specs.declared.fault.CertTextFault.TheVariants.{Memory};

    ghost from_gives = { λ _ e. e ≡ Memory };

    fn from(_: AllocError) -> CertTextFault {
        CertTextFault::Memory
    }
}

impl<T: Drop> From<AllocFailed<T>> for CertTextFault {
    ghost use Rattle.std.specs.Prelude.{◌≡◌};
    ghost use Rattle.certificate.specs.declared.fault.CertTextFault.TheVariants.{Memory};

    ghost from_gives = { λ _ e. e ≡ Memory };

    fn from(_: AllocFailed<T>) -> CertTextFault {
        CertTextFault::Memory
    }
}
