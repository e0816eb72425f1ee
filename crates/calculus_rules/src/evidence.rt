//! The kinds of evidence that a term is erasable (PCUIC: Sozeau et al., "Coq Coq Correct!", POPL 2020, section 4: erasable terms).

/// Why a term is erasable: `specs/Erasable.antt` has the rule of each.
#[derive(Clone, Copy, Debug, PartialEq, Eq)]
pub enum Evidence {
    /// It has a type that is equal to products ending in a sort: it is a type, or what gives one.
    Arity,
    /// It has a type of sort `Prop`.
    Proof,
    /// It is a match whose predicate has sort `Prop` in its context.
    PropMatch,
    /// It is a constructor of a family of sort `Prop`.
    PropConstructor,
}
