//! Why arguments aren't stored.

use std::alloc::{AllocError, AllocFailed};

/// Why data isn't put into a machine's memory: a block had no room within the machine's bound on pages and the module's maximum, the machine had failed for want
/// of memory before, or there was no memory now.
#[derive(Clone, Copy, PartialEq, Eq, Debug)]
pub enum StoreFault {
    Exhausted,
    Failed,
    Memory,
}

impl From<AllocError> for StoreFault {
    ghost use Rattle.std.specs.Prelude.{◌≡◌};
    ghost use Rattle.mem_value.specs.declared.store_fault.StoreFault.TheVariants.{Memory};

    ghost from_gives = { λ _ t. t ≡ Memory };

    fn from(_e: AllocError) -> StoreFault {
        StoreFault::Memory
    }
}

impl<T: Drop> From<AllocFailed<T>> for StoreFault {
    ghost use Rattle.std.specs.Prelude.{◌≡◌};
    ghost use Rattle.mem_value.specs.declared.store_fault.StoreFault.TheVariants.{Memory};

    ghost from_gives = { λ _ t. t ≡ Memory };

    fn from(_e: AllocFailed<T>) -> StoreFault {
        StoreFault::Memory
    }
}
