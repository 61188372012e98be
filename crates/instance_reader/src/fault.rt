// Why bytes were not read as a model.
ghost use Rattle.std.specs.Prelude.{◌≡◌, Some, None};
ghost use Rattle.instance_reader.specs.Reading.{fault_at, no_number, unknown_key};
ghost use Rattle.instance_reader.specs.declared.fault.ReadModelFault.TheVariants.{Refused, Memory};

use lot_model::{Key, ModelCode, ModelFault, Place};
use std::alloc::{AllocError, AllocFailed};
use thiserror::Error;

/// Why bytes were not read as a model.
#[derive(Clone, Copy, Debug, PartialEq, Eq, Error)]
pub enum ReadModelFault {
    /// The model is refused.
    #[error("{0}")]
    Refused(ModelFault),
    /// Memory ran out.
    #[error("out of memory")]
    Memory,
}

impl From<AllocError> for ReadModelFault {
    ghost use Rattle.std.specs.Prelude.{◌≡◌};
    ghost use Rattle.instance_reader.specs.declared.fault.ReadModelFault.TheVariants.{Memory};

    ghost from_gives = { λ _ e. e ≡ Memory };

    fn from(_: AllocError) -> ReadModelFault {
        ReadModelFault::Memory
    }
}

impl<T: Drop> From<AllocFailed<T>> for ReadModelFault {
    ghost use Rattle.std.specs.Prelude.{◌≡◌};
    ghost use Rattle.instance_reader.specs.declared.fault.ReadModelFault.TheVariants.{Memory};

    ghost from_gives = { λ _ e. e ≡ Memory };

    fn from(_: AllocFailed<T>) -> ReadModelFault {
        ReadModelFault::Memory
    }
}

/// The value of a key, or the key itself, breaks a rule.
pub fn fault_at(code: ModelCode, place: Place, key: Key) -> ReadModelFault
    ensures { result ≡ Refused (fault_at code place key) }
{
    ReadModelFault::Refused(ModelFault {
        code,
        place,
        key: Some(key),
        period: None,
    })
}

/// A table has a key that it can't have.
pub fn unknown_key(place: Place) -> ReadModelFault
    ensures { result ≡ Refused (unknown_key place) }
{
    ReadModelFault::Refused(ModelFault {
        code: ModelCode::UnknownKey,
        place,
        key: None,
        period: None,
    })
}

/// An entry of a list is no whole number.
pub fn no_number(place: Place, key: Key, period: u64) -> ReadModelFault
    ensures { result ≡ Refused (no_number place key period) }
{
    ReadModelFault::Refused(ModelFault {
        code: ModelCode::WrongKind,
        place,
        key: Some(key),
        period: Some(period),
    })
}
