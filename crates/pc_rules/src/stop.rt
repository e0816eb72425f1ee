//! How a call ends without a result: it stops, or a rule is broken.
use crate::broken::Broken;
use pc_terms::term::MakeFault;
use std::alloc::AllocError;
use universe_levels::universe::UniverseFault;

/// What stops a call that breaks no rule.
#[derive(Clone, Copy, Debug, PartialEq, Eq)]
pub enum Stop {
    /// No unit is left.
    Spent,
    /// A limit was passed: a term's depth or a variable's number, an addition to a level, or the number of rules in one another.
    TooDeep,
    /// There is no memory.
    Memory,
}

/// What halts a call of the directed rules: it stops, or a rule is broken.
#[derive(Drop)]
pub enum Halt {
    Stop(Stop),
    Broken(Broken),
}

impl From<AllocError> for Stop {
    ghost use Rattle.std.specs.Prelude.{◌≡◌};
    ghost use Rattle.pc_rules.specs.declared.stop.Stop.TheVariants.{Memory};

    ghost from_gives = { λ _ s. s ≡ Memory };

    fn from(_e: AllocError) -> Stop {
        Stop::Memory
    }
}

impl From<MakeFault> for Stop {
    ghost use Rattle.std.specs.Prelude.{◌≡◌};
    ghost use Rattle.pc_rules.specs.Stops.{stop_of};

    ghost from_gives = { λ f s. s ≡ stop_of f };

    fn from(f: MakeFault) -> Stop {
        match f {
            MakeFault::TooDeep => Stop::TooDeep,
            MakeFault::Memory => Stop::Memory,
        }
    }
}

impl From<UniverseFault> for Stop {
    ghost use Rattle.std.specs.Prelude.{◌≡◌};
    ghost use Rattle.pc_rules.specs.Stops.{universe_stop};

    ghost from_gives = { λ f s. s ≡ universe_stop f };

    fn from(f: UniverseFault) -> Stop {
        match f {
            UniverseFault::TooBig | UniverseFault::Empty => Stop::TooDeep,
            UniverseFault::Memory => Stop::Memory,
        }
    }
}

impl From<Stop> for Halt {
    ghost use Rattle.std.specs.Prelude.{◌≡◌};
    ghost use Rattle.pc_rules.specs.declared.stop.Halt.TheVariants.{Stop};

    ghost from_gives = { λ s h. h ≡ Stop s };

    fn from(s: Stop) -> Halt {
        Halt::Stop(s)
    }
}

impl From<AllocError> for Halt {
    ghost use Rattle.std.specs.Prelude.{◌≡◌};
    ghost use Rattle.pc_rules.specs.declared.stop.Stop.TheVariants.{Memory};
    ghost use Rattle.pc_rules.specs.declared.stop.Halt.TheVariants.{Stop};

    ghost from_gives = { λ _ h. h ≡ Stop Memory };

    fn from(e: AllocError) -> Halt {
        Halt::Stop(e.into())
    }
}

impl From<MakeFault> for Halt {
    ghost use Rattle.std.specs.Prelude.{◌≡◌};
    ghost use Rattle.pc_rules.specs.Stops.{stop_of};
    ghost use Rattle.pc_rules.specs.declared.stop.Halt.TheVariants.{Stop};

    ghost from_gives = { λ f h. h ≡ Stop (stop_of f) };

    fn from(f: MakeFault) -> Halt {
        Halt::Stop(f.into())
    }
}

impl From<UniverseFault> for Halt {
    ghost use Rattle.std.specs.Prelude.{◌≡◌};
    ghost use Rattle.pc_rules.specs.Stops.{universe_stop};
    ghost use Rattle.pc_rules.specs.declared.stop.Halt.TheVariants.{Stop};

    ghost from_gives = { λ f h. h ≡ Stop (universe_stop f) };

    fn from(f: UniverseFault) -> Halt {
        Halt::Stop(f.into())
    }
}
