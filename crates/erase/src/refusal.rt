//! Why an accepted environment is not erased.
ghost use Rattle.std.specs.Prelude.{◌≡◌};
ghost use Rattle.pc_rules.specs.declared.stop.Stop.TheVariants.{Memory};
ghost use Rattle.pc_rules.specs.declared.stop.Halt.TheVariants.{Stop as Stopped};

use pc_rules::broken::Place;
use pc_rules::stop::{Halt, Stop};
use pc_terms::leaf::Name;

/// Why an accepted environment is not erased.
#[derive(Drop)]
pub enum EraseRefusal {
    /// The erased program would name a constant without a body: the first declared of these.
    AxiomReached { name: Name },
    /// Erasure halted at a place: at main, or at the declaration whose body was being erased.
    Halt { place: Place, halt: Halt },
}

/// What halts erasure, with its place.
#[derive(Drop)]
pub(crate) struct HaltAt {
    pub place: Place,
    pub halt: Halt,
}

impl From<HaltAt> for EraseRefusal {
    ghost use Rattle.std.specs.Prelude.{◌≡◌};
    ghost use Rattle.erase.specs.declared.refusal.EraseRefusal.TheVariants.{Halt};

    ghost from_gives = { λ h e. e ≡ Halt h.place h.halt };

    fn from(h: HaltAt) -> EraseRefusal {
        let HaltAt { place, halt } = h;
        EraseRefusal::Halt { place, halt }
    }
}

/// Want of memory at a place.
pub(crate) fn no_memory(place: Place) -> HaltAt
    ensures place { result.place ≡ place }
    ensures memory { result.halt ≡ Stopped Memory }
{
    HaltAt {
        place,
        halt: Halt::Stop(Stop::Memory),
    }
}
