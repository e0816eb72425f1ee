//! What a user declares of two levels.

use crate::level::Level;

/// How the value of one level stands to another's.
#[derive(Clone, Copy, Debug, PartialEq, Eq)]
pub enum Relation {
    /// less than
    Lt,
    /// at most
    Le,
    /// equal
    Eq,
}

/// The left level stands in the relation to the right one.
#[derive(Clone, Copy, Debug, PartialEq, Eq)]
pub struct Constraint {
    pub left: Level,
    pub relation: Relation,
    pub right: Level,
}
