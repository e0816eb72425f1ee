//! Why a pass over programs gave none.

/// Why a pass over programs gave none.
#[derive(Clone, Copy, Debug, PartialEq, Eq)]
pub enum PassFault {
    /// The program that the pass is to give has a term over the depth limit of 2,048.
    TooDeep,
    /// There was no memory.
    Memory,
}
