//! Why an environment is not accepted.
ghost use Rattle.std.specs.Prelude.{◌≡◌};
ghost use Rattle.env_check.specs.Steps.{refusal_at};

use pc_rules::broken::{Broken, Place};
use pc_rules::meter::Account;
use pc_rules::stop::{Halt, Stop};

/// Why an environment that is read is not accepted.
#[derive(Drop)]
pub enum Refusal {
    /// A rule is broken at a place of the environment: the first one in the order of the rules.
    Broken { place: Place, rule: Broken },
    /// No unit is left, at a place to which the rules came with this account.
    Spent { place: Place, before: Account },
    /// A limit was passed at a place: a term's depth or a variable's number, an addition to a level, or the number of rules in one another.
    TooDeep { place: Place },
    /// There is no memory.
    Memory,
}

/// Why an environment is refused before its declarations are looked at.
#[derive(Drop)]
pub enum BareRefusal {
    /// A rule is broken at a level or at a constraint: the first one in the order of the rules.
    Broken { place: Place, rule: Broken },
    /// There is no memory.
    Memory,
}

impl From<BareRefusal> for Refusal {
    ghost use Rattle.env_check.specs.Beginning.{refused_bare};

    ghost from_gives = { λ e r. r ≡ refused_bare e };

    fn from(refusal: BareRefusal) -> Refusal {
        match refusal {
            BareRefusal::Broken { place, rule } => Refusal::Broken { place, rule },
            BareRefusal::Memory => Refusal::Memory,
        }
    }
}

/// What halts the rules at a place, to which they came with this account, as a refusal. Takes no memory.
pub(crate) fn refusal_at(place: Place, before: Account, halt: Halt) -> Refusal
    ensures is { result ≡ refusal_at place before halt }
{
    match halt {
        Halt::Stop(Stop::Spent) => Refusal::Spent { place, before },
        Halt::Stop(Stop::TooDeep) => Refusal::TooDeep { place },
        Halt::Stop(Stop::Memory) => Refusal::Memory,
        Halt::Broken(rule) => Refusal::Broken { place, rule },
    }
}
