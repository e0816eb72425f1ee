//! Why a program isn't lifted.

/// Why a program isn't lifted.
#[derive(Clone, Copy, Debug, PartialEq, Eq)]
pub enum LiftFault {
    /// A lambda or fixpoint has over 1,000 captured words.
    Captured,
    /// The constants, the definitions of fixpoints and the other lambdas are together over 32,768.
    Functions,
    /// There was no memory.
    Memory,
}
