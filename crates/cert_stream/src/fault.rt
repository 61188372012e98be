// Why a certificate's file isn't read.

use certificate::CertTextFault;
use lot_io::ReadFault;
use std::alloc::AllocError;
use thiserror::Error;

/// Why a certificate's file isn't read.
#[derive(Clone, Copy, Debug, PartialEq, Eq, Error)]
pub enum ClaimFault {
    /// There is no file of this name.
    #[error("there is no such file")]
    Missing,
    /// A fetch failed.
    #[error("the file could not be read")]
    Failed,
    /// The file has more than `MAX_BYTES` bytes.
    #[error("the file is too long")]
    TooLong,
    /// The file is no certificate's text. The fault is never `CertTextFault::Memory`.
    #[error("the text is no certificate's: {0}")]
    Text(CertTextFault),
    /// Memory ran out.
    #[error("out of memory")]
    Memory,
}

impl From<ReadFault> for ClaimFault {
    ghost use Rattle.std.specs.Prelude.{◌≡◌};
    ghost use Rattle.cert_stream.specs.Faults.{stream_fault};

    ghost from_gives = { λ fault e. e ≡ stream_fault fault };

    fn from(fault: ReadFault) -> ClaimFault {
        match fault {
            ReadFault::Missing => ClaimFault::Missing,
            ReadFault::Failed => ClaimFault::Failed,
            ReadFault::TooLong => ClaimFault::TooLong,
            ReadFault::Memory => ClaimFault::Memory,
        }
    }
}

impl From<AllocError> for ClaimFault {
    ghost use Rattle.std.specs.Prelude.{◌≡◌};
    ghost use Rattle.cert_stream.specs.declared.fault.ClaimFault.TheVariants.{Memory};

    ghost from_gives = { λ _ e. e ≡ Memory };

    fn from(_: AllocError) -> ClaimFault {
        ClaimFault::Memory
    }
}
