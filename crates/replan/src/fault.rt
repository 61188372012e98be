// Why the later periods are no instance.
ghost use Rattle.std.specs.Prelude.{Some};
ghost use Rattle.replan.specs.Texts.{rest_fault_text};

use lot_model::ModelFault;
use std::alloc::AllocError;
use std::fmt;
use thiserror::Error;

/// Why the later periods are no instance of their own.
#[derive(Clone, Copy, Debug, PartialEq, Eq, Error)]
pub enum RestFault {
    /// No period is left.
    First,
    /// An item has a lead time; the number of the first such one.
    Lead(u32),
    /// The later periods break a rule of models, as where what is left of an item is past the limit: the first such
    /// rule, with its place in them.
    Draft(ModelFault),
    /// Memory ran out.
    Memory,
}

// By hand: its text is promised, and a derived message has no contract.
impl fmt::Display for RestFault {
    ghost output = { λ fault. Some (rest_fault_text fault) };

    fn fmt<W: fmt::Write>(&self, f: &mut fmt::Formatter<W>) -> fmt::Result {
        match self {
            RestFault::First => f.write_str("first"),
            RestFault::Lead(item) => write!(f, "lead item {item}"),
            RestFault::Draft(fault) => write!(f, "{fault}"),
            RestFault::Memory => f.write_str("out of memory"),
        }
    }
}

impl From<AllocError> for RestFault {
    ghost use Rattle.std.specs.Prelude.{◌≡◌};
    ghost use Rattle.replan.specs.declared.fault.RestFault.TheVariants.{Memory};

    ghost from_gives = { λ _ e. e ≡ Memory };

    fn from(_: AllocError) -> RestFault {
        RestFault::Memory
    }
}
