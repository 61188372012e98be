// Why separation gives no answer.
use std::alloc::AllocError;
use thiserror::Error;

/// Why separation gives no answer.
#[derive(Clone, Copy, Debug, PartialEq, Eq, Error)]
pub enum SepFault {
    /// A step of the evaluation doesn't fit fractions of 128 bits.
    #[error("a number is past 128 bits")]
    Passed128,
    /// Memory ran out.
    #[error("out of memory")]
    Memory,
}

impl From<AllocError> for SepFault {
    ghost use Rattle.std.specs.Prelude.{◌≡◌};
    ghost use Rattle.ls_cuts.specs.declared.fault.SepFault.TheVariants.{Memory};

    ghost from_gives = { λ _ e. e ≡ Memory };

    fn from(_: AllocError) -> SepFault {
        SepFault::Memory
    }
}
