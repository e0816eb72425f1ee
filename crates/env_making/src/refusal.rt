//! Why there is no certificate of an environment.
ghost use Rattle.std.specs.Prelude.{◌≡◌};
ghost use Rattle.env_making.specs.Refusals.{halted_at};

use env_check::refusal::BareRefusal;
use pc_rules::broken::{Broken, Place};
use pc_rules::stop::{Halt, Stop};

/// Why an environment that is read has no certificate.
#[derive(Drop)]
pub enum CertRefusal {
    /// A rule is broken at a place of the environment: the first one in the order of the rules.
    Broken { place: Place, rule: Broken },
    /// No unit is left.
    Spent,
    /// A limit was passed: a term's depth or a variable's number, an addition to a level, or the number of rules in one another.
    TooDeep,
    /// There is no memory.
    Memory,
}

impl From<BareRefusal> for CertRefusal {
    ghost use Rattle.env_making.specs.Refusals.{refused_first};

    ghost from_gives = { λ e r. r ≡ refused_first e };

    fn from(refusal: BareRefusal) -> CertRefusal {
        match refusal {
            BareRefusal::Broken { place, rule } => CertRefusal::Broken { place, rule },
            BareRefusal::Memory => CertRefusal::Memory,
        }
    }
}

/// What halts the rules at a place, as a refusal. Takes no memory.
pub(crate) fn halted_at(place: Place, halt: Halt) -> CertRefusal
    ensures is { result ≡ halted_at place halt }
{
    match halt {
        Halt::Stop(Stop::Spent) => CertRefusal::Spent,
        Halt::Stop(Stop::TooDeep) => CertRefusal::TooDeep,
        Halt::Stop(Stop::Memory) => CertRefusal::Memory,
        Halt::Broken(rule) => CertRefusal::Broken { place, rule },
    }
}
