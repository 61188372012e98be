// Why there is no page.
use crate::limits::MAX_PAGE;
use std::alloc::AllocError;
use thiserror::Error;

/// Why no page was made.
#[derive(Clone, Copy, Debug, PartialEq, Eq, Error)]
pub enum PageFault {
    /// It would be longer than `MAX_PAGE` bytes.
    #[error("a page of more than {most} bytes", most = MAX_PAGE)]
    Long,
    /// Memory ran out.
    #[error("out of memory")]
    Memory,
}

impl From<AllocError> for PageFault {
    ghost use Rattle.std.specs.Prelude.{◌≡◌};
    ghost use Rattle.plan_page.specs.declared.fault.PageFault.TheVariants.{Memory};

    ghost from_gives = { λ _ e. e ≡ Memory };

    fn from(_: AllocError) -> PageFault {
        PageFault::Memory
    }
}
