//! What emission refuses.
ghost use Rattle.std.specs.Prelude.{◌≡◌};
ghost use Rattle.wasm_emit.specs.declared.fault.EmitFault.TheVariants as fault;

use std::alloc::{AllocError, AllocFailed};
use thiserror::Error;

/// Why a program has no module.
#[derive(Clone, Copy, Debug, PartialEq, Eq, Drop, Error)]
pub enum EmitFault {
    /// A function would have over 50,000 locals besides its parameters.
    #[error("a function has over 50,000 locals")]
    Locals,
    /// There is no memory.
    #[error("out of memory")]
    Memory,
}

impl From<AllocError> for EmitFault {
    ghost from_gives = { λ _ e. e ≡ fault.Memory };

    fn from(_e: AllocError) -> EmitFault {
        EmitFault::Memory
    }
}

impl<T: Drop> From<AllocFailed<T>> for EmitFault {
    ghost from_gives = { λ _ e. e ≡ fault.Memory };

    fn from(_e: AllocFailed<T>) -> EmitFault {
        EmitFault::Memory
    }
}
