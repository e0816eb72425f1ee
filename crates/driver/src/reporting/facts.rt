//! How many facts a check has.

/// How many facts of each kind the check of an environment has.
#[derive(Clone, Copy, Debug, PartialEq, Eq)]
pub struct Facts {
    /// The declarations, axioms among them.
    pub declarations: u64,
    /// The constants without a body.
    pub axioms: u64,
    /// The uses of the rules 1 to 12, each up to the last value of u64.
    pub uses: [u64; 12],
}
