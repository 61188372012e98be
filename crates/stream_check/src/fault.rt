// Why the file of a certificate gave no answer.
ghost use Rattle.std.specs.Prelude.{◌≡◌};

use cert_checker::{CheckFault, Rejected};
use cert_stream::ClaimFault;
use certificate::CertTextFault;
use lot_io::ReadFault;
use std::alloc::{AllocError, AllocFailed};
use thiserror::Error;

/// Why the file of a certificate gave no answer.
#[derive(Clone, Copy, Debug, PartialEq, Eq, Error)]
pub enum StreamFault {
    /// There is no such file.
    #[error("there is no such file")]
    Missing,
    /// The file could not be read.
    #[error("the file could not be read")]
    Failed,
    /// The file has more than `cert_stream::MAX_BYTES` bytes.
    #[error("the file is too long")]
    TooLong,
    /// Its text is no certificate's.
    #[error("the text is no certificate's: {0}")]
    Text(CertTextFault),
    /// The certificate is refused.
    #[error("{0}")]
    Rejected(Rejected),
    /// Memory ran out.
    #[error("out of memory")]
    Memory,
}

impl From<AllocError> for StreamFault {
    ghost use Rattle.stream_check.specs.declared.fault.StreamFault.TheVariants.{Memory};

    ghost from_gives = { λ _ e. e ≡ Memory };

    fn from(_: AllocError) -> StreamFault {
        StreamFault::Memory
    }
}

impl<T: Drop> From<AllocFailed<T>> for StreamFault {
    ghost use Rattle.stream_check.specs.declared.fault.StreamFault.TheVariants.{Memory};

    ghost from_gives = { λ _ e. e ≡ Memory };

    fn from(_: AllocFailed<T>) -> StreamFault {
        StreamFault::Memory
    }
}

impl From<ReadFault> for StreamFault {
    ghost use Rattle.stream_check.specs.Faults.{of_file};

    ghost from_gives = { λ fault e. e ≡ of_file fault };

    fn from(fault: ReadFault) -> StreamFault {
        match fault {
            ReadFault::Missing => StreamFault::Missing,
            ReadFault::Failed => StreamFault::Failed,
            ReadFault::TooLong => StreamFault::TooLong,
            ReadFault::Memory => StreamFault::Memory,
        }
    }
}

impl From<ClaimFault> for StreamFault {
    ghost use Rattle.stream_check.specs.Faults.{of_claim};

    ghost from_gives = { λ fault e. e ≡ of_claim fault };

    fn from(fault: ClaimFault) -> StreamFault {
        match fault {
            ClaimFault::Missing => StreamFault::Missing,
            ClaimFault::Failed => StreamFault::Failed,
            ClaimFault::TooLong => StreamFault::TooLong,
            ClaimFault::Text(fault) => StreamFault::Text(fault),
            ClaimFault::Memory => StreamFault::Memory,
        }
    }
}

impl From<CheckFault> for StreamFault {
    ghost use Rattle.stream_check.specs.Faults.{of_check};

    ghost from_gives = { λ fault e. e ≡ of_check fault };

    fn from(fault: CheckFault) -> StreamFault {
        match fault {
            CheckFault::Rejected(rejected) => StreamFault::Rejected(rejected),
            CheckFault::Memory => StreamFault::Memory,
        }
    }
}
