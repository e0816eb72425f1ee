//! Facts of a check and of a run.

/// A fact of a check or of a run.
#[derive(Clone, Copy, Debug, PartialEq, Eq, Drop)]
pub enum Fact {
    /// A declaration was checked and kept.
    DeclKept,
    /// A constant without a body was checked and kept.
    AxiomKept,
    /// The typing rule with this number, 1 to 12, was used once.
    RuleUsed(u8),
    /// A step of a run was made, of the class with this number, 1 to 6.
    StepDone(u8),
    /// A grow of a run's memory wasn't refused.
    Grew,
}
