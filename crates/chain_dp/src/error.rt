// Why a chain has no answer.
use std::alloc::AllocError;
use thiserror::Error;

/// Why a chain has no answer.
#[derive(Clone, Copy, Debug, PartialEq, Eq, Error)]
pub enum ChainError {
    /// To serve all that is asked for from opening stock costs 2^128 - 1 or more.
    #[error("to serve all from opening stock costs 2^128 - 1 or more")]
    TooDear,
    /// Memory ran out.
    #[error("out of memory")]
    Memory,
}

impl From<AllocError> for ChainError {
    ghost use Rattle.std.specs.Prelude.{◌≡◌};
    ghost use Rattle.chain_dp.specs.declared.error.ChainError.TheVariants.{Memory};

    ghost from_gives = { λ _ e. e ≡ Memory };

    fn from(_: AllocError) -> ChainError {
        ChainError::Memory
    }
}
