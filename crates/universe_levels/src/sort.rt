//! Sorts: propositions, and types of a universe.
ghost use Rattle.std.specs.Prelude.{◌≡◌, ◌≢◌, ◌↔◌, ℕ, IfOk, IfErr, IsTrue};
ghost use Rattle.universe_levels.specs.Sorts.{super_sort, product_sort, PassesLimit, IsSuper, IsProduct};

use crate::universe::{Universe, UniverseFault};
use std::alloc::Global;

/// A sort. Contracts see a universe in it as the list of its level expressions.
#[derive(Drop)]
pub enum Sort {
    /// The sort of propositions.
    Prop,
    /// The sort of the types of a universe, `Type u`; `Set` is that of level 0 with nothing added.
    Of(Universe),
}

impl Sort {
    /// The sort of this sort: `Type (Set + 1)` for `Prop`, and `Type (u + 1)` for `Type u` (PCUIC, the rule of sorts). `TooBig` exactly
    /// where an addition would pass 4,294,967,295, and else only `Memory`.
    pub fn super_of(&self, alloc: Global) -> Result<Sort, UniverseFault>
        ensures value { IfOk result (λ s. s ≡ super_sort self.now) }
        ensures meaning { IfOk result (λ s. (v : ℕ → ℕ) → IsSuper v self.now s) }
        ensures too_big { (result ≡ Err UniverseFault.TooBig) ↔ PassesLimit self.now }
        ensures not_empty { result ≢ Err UniverseFault.Empty }
    {
        match self {
            Sort::Prop => Ok(Sort::Of(Universe::above_set(alloc)?)),
            Sort::Of(u) => Ok(Sort::Of(u.raise(alloc)?)),
        }
    }

    /// The sort of a product whose domain and codomain have these sorts: `Prop` where the codomain is there, the codomain's sort where
    /// the domain is in `Prop`, and else the maximum of both (PCUIC, the rule of products). Answers only `Memory` besides.
    pub fn product(alloc: Global, domain: &Sort, codomain: &Sort) -> Result<Sort, UniverseFault>
        ensures value { IfOk result (λ s. s ≡ product_sort domain.now codomain.now) }
        ensures meaning { IfOk result (λ s. (v : ℕ → ℕ) → IsProduct v domain.now codomain.now s) }
        ensures only_memory { IfErr result (λ e. e ≡ UniverseFault.Memory) }
    {
        match (domain, codomain) {
            (Sort::Of(u), Sort::Of(v)) => Ok(Sort::Of(u.join(alloc, v)?)),
            _ => codomain.share(alloc),
        }
    }

    /// Whether the two are one sort, level expression by level expression. Takes no memory.
    pub fn same(&self, other: &Sort) -> bool
        ensures same { IsTrue result ↔ (self.now ≡ other.now) }
    {
        match (self, other) {
            (Sort::Prop, Sort::Prop) => true,
            (Sort::Of(u), Sort::Of(v)) => u.same(v),
            _ => false,
        }
    }

    /// The same sort in memory of its own; answers only `Memory` besides.
    pub fn share(&self, alloc: Global) -> Result<Sort, UniverseFault>
        ensures value { IfOk result (λ s. s ≡ self.now) }
        ensures only_memory { IfErr result (λ e. e ≡ UniverseFault.Memory) }
    {
        match self {
            Sort::Prop => Ok(Sort::Prop),
            Sort::Of(u) => Ok(Sort::Of(u.share(alloc)?)),
        }
    }
}
