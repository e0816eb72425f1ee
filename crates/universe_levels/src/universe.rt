//! Universes: maxima of level expressions.
ghost use Rattle.std.specs.Prelude.{◌≡◌, ◌≢◌, ◌↔◌, ◌+◌, ◌^◌, ◌≤◌, ℕ, max, [], ◌∷◌, ◌++◌, map, Any, IfOk, IfErr, IsTrue};
ghost use Rattle.universe_levels.specs.Maximum.{maximum_of, IsNormal};
ghost use Rattle.universe_levels.specs.Parts.{raised, set_plus_one};
ghost use Rattle.universe_levels.specs.Valuation.{value_of};

use crate::level::{Level, LevelExpr};
use crate::maximum::put_all;
use std::alloc::Global;
use std::marker::Model;
use thiserror::Error;

/// Why there is no such universe or sort.
#[derive(Clone, Copy, Debug, PartialEq, Eq, Error)]
pub enum UniverseFault {
    /// An addition to a level would pass 4,294,967,295.
    #[error("an addition to a level passes 4294967295")]
    TooBig,
    /// A universe has at least one level expression, and none was given.
    #[error("a universe without a level expression")]
    Empty,
    /// There is no memory for it.
    #[error("out of memory")]
    Memory,
}

/// A universe: the maximum of one or more level expressions. Contracts see it as the list of them, which is not empty, names each level
/// once with its greatest addition, and rises with the levels' numbers.
#[derive(Drop)]
pub struct Universe {
    parts: Vec<LevelExpr>,
}

impl Model for Universe {
    ghost use Rattle.std.specs.Prelude.{List};
    ghost use Rattle.universe_levels.specs.declared.level.LevelExpr.{LevelExpr};

    ghost Value = { List LevelExpr };

    ghost use Rattle.universe_levels.specs.Maximum.{IsNormal};

    ghost view = { λ u. u.parts.items };

    ghost invariant = { λ u. IsNormal u.parts.items };
}

impl Universe {
    /// The maximum of the level expressions, which may come in any order and name a level several times. `Empty` exactly where there
    /// is none, and else only `Memory`.
    pub fn of(alloc: Global, parts: &[LevelExpr]) -> Result<Universe, UniverseFault>
        ensures value { IfOk result (λ u. u ≡ maximum_of parts.now) }
        ensures meaning { IfOk result (λ u. (v : ℕ → ℕ) → value_of v u ≡ value_of v parts.now) }
        ensures empty { (result ≡ Err UniverseFault.Empty) ↔ (parts.now ≡ []) }
        ensures not_too_big { result ≢ Err UniverseFault.TooBig }
    {
        if parts.is_empty() {
            return Err(UniverseFault::Empty);
        }
        let mut kept = Vec::new(alloc);
        put_all(&mut kept, parts)?;
        Ok(Universe { parts: kept })
    }

    /// The maximum of two universes; answers only `Memory` besides.
    pub fn join(&self, alloc: Global, other: &Universe) -> Result<Universe, UniverseFault>
        ensures value { IfOk result (λ u. u ≡ maximum_of (self.now ++ other.now)) }
        ensures meaning { IfOk result (λ u. (v : ℕ → ℕ) → value_of v u ≡ max (value_of v self.now) (value_of v other.now)) }
        ensures only_memory { IfErr result (λ e. e ≡ UniverseFault.Memory) }
    {
        let mut kept = self.share(alloc)?.parts;
        put_all(&mut kept, other.parts.as_slice())?;
        Ok(Universe { parts: kept })
    }

    /// The level expressions of the universe, in rising order of levels. Takes no memory.
    pub fn parts(&self) -> &[LevelExpr]
        ensures parts { result.now ≡ self.now }
        ensures normal { IsNormal self.now }
    {
        self.parts.as_slice()
    }

    /// Whether the two have the same level expressions. Takes no memory.
    pub fn same(&self, other: &Universe) -> bool
        ensures same { IsTrue result ↔ (self.now ≡ other.now) }
    {
        let n = self.parts.len();
        if n != other.parts.len() {
            return false;
        }
        for i in 0..n {
            if self.parts[i] != other.parts[i] {
                return false;
            }
        }
        true
    }

    /// The same universe in memory of its own; answers only `Memory` besides.
    pub fn share(&self, alloc: Global) -> Result<Universe, UniverseFault>
        ensures value { IfOk result (λ u. u ≡ self.now) }
        ensures only_memory { IfErr result (λ e. e ≡ UniverseFault.Memory) }
    {
        let parts = self
            .parts
            .as_slice()
            .to_vec(alloc)
            .map_err(|_| UniverseFault::Memory)?;
        Ok(Universe { parts })
    }

    /// The universe `Set + 1`; answers only `Memory` besides.
    pub(crate) fn above_set(alloc: Global) -> Result<Universe, UniverseFault>
        ensures value { IfOk result (λ u. u ≡ set_plus_one ∷ []) }
        ensures only_memory { IfErr result (λ e. e ≡ UniverseFault.Memory) }
    {
        let mut parts = Vec::new(alloc);
        let part = LevelExpr {
            level: Level(0),
            add: 1,
        };
        parts.push(part).map_err(|_| UniverseFault::Memory)?;
        Ok(Universe { parts })
    }

    /// The universe plus one; `TooBig` exactly where an addition would pass 4,294,967,295, which is found before memory is asked for.
    pub(crate) fn raise(&self, alloc: Global) -> Result<Universe, UniverseFault>
        ensures value { IfOk result (λ u. u ≡ map raised self.now) }
        ensures meaning { IfOk result (λ u. (v : ℕ → ℕ) → value_of v u ≡ value_of v self.now + 1) }
        ensures too_big { (result ≡ Err UniverseFault.TooBig) ↔ Any (λ e. 2 ^ 32 ≤ e.add + 1) self.now }
        ensures not_empty { result ≢ Err UniverseFault.Empty }
    {
        if self.parts.iter().any(|part| part.add == u32::MAX) {
            return Err(UniverseFault::TooBig);
        }
        let mut parts = Vec::new(alloc);
        for part in self.parts.iter() {
            let raised = LevelExpr {
                level: part.level,
                add: part.add + 1,
            };
            parts.push(raised).map_err(|_| UniverseFault::Memory)?;
        }
        Ok(Universe { parts })
    }
}
