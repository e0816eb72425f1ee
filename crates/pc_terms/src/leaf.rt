//! What the nodes of a term name.

/// A constant or a block of families, by its number: the declarations' names count from 0 in the order in which they are first seen.
#[derive(Clone, Copy, Debug, PartialEq, Eq)]
pub struct Name(pub u32);

/// A family of a block, by its place in the block from 0.
#[derive(Clone, Copy, Debug, PartialEq, Eq)]
pub struct FamilyId {
    pub block: Name,
    pub family: u32,
}
