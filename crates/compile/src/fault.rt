//! Why a program has no module.
ghost use Rattle.std.specs.Prelude.{◌≡◌};
ghost use Rattle.compile.specs.Passes.{of_pass, of_lifting, of_emission};

use closure_lift::LiftFault;
use lambda_box::PassFault;
use wasm_emit::EmitFault;

/// Why a program has no module.
#[derive(Clone, Copy, Debug, PartialEq, Eq)]
pub enum CompileFault {
    /// The saturated program has a term over the depth limit of 2,048.
    Depth,
    /// A lambda or fixpoint has over 1,000 captured words.
    Captured,
    /// The constants, the definitions of fixpoints and the other lambdas are together over 32,768.
    Functions,
    /// A function would have over 50,000 locals.
    Locals,
    /// There was no memory.
    Memory,
}

impl From<PassFault> for CompileFault {
    ghost use Rattle.std.specs.Prelude.{◌≡◌};
    ghost use Rattle.compile.specs.Passes.{of_pass};

    ghost from_gives = { λ e r. r ≡ of_pass e };

    fn from(why: PassFault) -> CompileFault {
        match why {
            PassFault::TooDeep => CompileFault::Depth,
            PassFault::Memory => CompileFault::Memory,
        }
    }
}

impl From<LiftFault> for CompileFault {
    ghost use Rattle.std.specs.Prelude.{◌≡◌};
    ghost use Rattle.compile.specs.Passes.{of_lifting};

    ghost from_gives = { λ e r. r ≡ of_lifting e };

    fn from(why: LiftFault) -> CompileFault {
        match why {
            LiftFault::Captured => CompileFault::Captured,
            LiftFault::Functions => CompileFault::Functions,
            LiftFault::Memory => CompileFault::Memory,
        }
    }
}

impl From<EmitFault> for CompileFault {
    ghost use Rattle.std.specs.Prelude.{◌≡◌};
    ghost use Rattle.compile.specs.Passes.{of_emission};

    ghost from_gives = { λ e r. r ≡ of_emission e };

    fn from(why: EmitFault) -> CompileFault {
        match why {
            EmitFault::Locals => CompileFault::Locals,
            EmitFault::Memory => CompileFault::Memory,
        }
    }
}
