//! Universe levels, and a level with something added.

/// A universe level by its number: 0 is `Set`, and the declared levels count from 1.
#[derive(Clone, Copy, Debug, PartialEq, Eq)]
pub struct Level(pub u32);

/// A level and what is added to it: `level + add`.
#[derive(Clone, Copy, Debug, PartialEq, Eq)]
pub struct LevelExpr {
    pub level: Level,
    pub add: u32,
}
