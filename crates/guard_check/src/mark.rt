//! Marks of variables.
ghost use Rattle.std.specs.Prelude.{◌≡◌};
ghost use Rattle.pc_rules.specs.DirectedGuard.{applied, opens};
ghost use Rattle.guard_check.specs.Marks.{mark_of};

/// What is known of a variable, or of a term.
#[derive(Clone, Copy)]
pub(crate) enum Mark {
    /// The fixpoint's variable for a definition, with the place of the argument that this definition recurses on.
    Recursive(u32),
    /// Equal to the recursive argument of the body that is walked.
    Argument,
    /// Smaller than it.
    Smaller,
    /// None of these.
    Other,
}

impl Mark {
    /// Whether a match on such a term has smaller variables in its branches.
    pub fn opens(self) -> bool
        ensures is { result ≡ opens (mark_of self) }
    {
        match self {
            Mark::Argument | Mark::Smaller => true,
            Mark::Recursive(_) | Mark::Other => false,
        }
    }

    /// What such a term is with one argument more.
    pub fn applied(self) -> Mark
        ensures is { mark_of result ≡ applied (mark_of self) }
    {
        match self {
            Mark::Smaller => Mark::Smaller,
            _ => Mark::Other,
        }
    }
}
