//! Why there is no text.
ghost use Rattle.std.specs.Prelude.{◌≡◌};
ghost use Rattle.workload.specs.declared.fault.MakeTextFault.TheVariants as fault;

use std::alloc::AllocError;
use thiserror::Error;

/// Why there is no text.
#[derive(Clone, Copy, Debug, PartialEq, Eq, Drop, Error)]
pub enum MakeTextFault {
    /// There is no memory.
    #[error("out of memory")]
    Memory,
}

impl From<AllocError> for MakeTextFault {
    ghost from_gives = { λ _ e. e ≡ fault.Memory };

    fn from(_e: AllocError) -> MakeTextFault {
        MakeTextFault::Memory
    }
}
