//! The rules that may be broken, with what each refusal keeps.
ghost use Rattle.std.specs.Prelude.{◌≡◌, IfOk};

use pc_terms::leaf::{FamilyId, Name};
use pc_terms::lists::Numbers;
use pc_terms::term::Term;
use std::alloc::{AllocError, Global};
use std::marker::Model;
use universe_levels::level::Level;
use universe_levels::sort::Sort;

/// A sort behind a box, so that what each call of a rule may answer takes less room. Contracts see it as the sort.
#[derive(Drop)]
pub struct BoxedSort {
    inner: Box<Sort>,
}

impl Model for BoxedSort {
    ghost use Rattle.universe_levels.specs.declared.sort.Sort.{Sort};
    ghost use Rattle.universe_levels.specs.contracts.sort.Sort as sorts;

    ghost Value = { Sort };

    ghost coded = { sorts.the_row.coded };

    ghost view = { λ b. b.inner.value };
}

impl BoxedSort {
    /// The sort, behind a box.
    pub fn new(alloc: Global, sort: Sort) -> Result<BoxedSort, AllocError>
        ensures ok { IfOk result (λ b. b ≡ sort) }
    {
        Ok(BoxedSort {
            inner: Box::new(alloc, sort)?,
        })
    }

    /// The sort. It takes no memory.
    pub fn get(&self) -> &Sort
        ensures is { result.now ≡ self.now }
    {
        &self.inner
    }
}

/// Two weak-head normal forms of which one is not below, or not equal to, the other.
#[derive(Drop)]
pub enum Clash {
    Terms(Term, Term),
    Sorts(BoxedSort, BoxedSort),
}

/// Why the directed rules refuse.
#[derive(Drop)]
pub enum Broken {
    /// A variable with no entry: its index, and the length of the context.
    UnboundRel {
        index: u32,
        length: u32,
    },
    /// Nothing that fits is kept by this name.
    UnknownName {
        name: Name,
    },
    /// A family or a constructor that is not there: its number, and how many there are.
    BadNumber {
        number: u32,
        count: u32,
    },
    /// A level that is not declared.
    LevelUndeclared {
        level: Level,
    },
    /// Constraints, by their places in rising order, that alone have no valuation.
    UniverseCycle {
        constraints: Numbers,
    },
    /// A type was expected: the weak-head normal form of the term's type is no sort.
    NotASort {
        whnf: Term,
    },
    /// A function was expected: the weak-head normal form of its type is no product.
    NotAProduct {
        whnf: Term,
    },
    /// One term is not below another, or not equal to it.
    NotBelow {
        clash: Clash,
    },
    /// The wanted and the given number of parameters, names, branches or indices.
    CountWrong {
        want: u32,
        got: u32,
    },
    /// The weak-head normal form of a scrutinee's type is not the match's family with all its arguments.
    NotTheFamily {
        whnf: Term,
    },
    /// A match on a family in `Prop` into a greater sort.
    ElimNotAllowed {
        family: FamilyId,
    },
    /// The definition's body does not begin with enough lambdas.
    NotEnoughAbstractions {
        def: u32,
    },
    /// The weak-head normal form of a recursive call's argument, or the fixpoint's variable where it has too few arguments.
    NotGuarded {
        argument: Term,
    },
    /// A constructor that is not strictly positive: the family's and the constructor's places.
    NotPositive {
        family: u32,
        ctor: u32,
    },
    /// The sort of a constructor's argument, and that of its family.
    SortTooSmall {
        argument: BoxedSort,
        family: BoxedSort,
    },
    /// A level, a declaration or a constructor whose name was there before.
    DuplicateName {
        name: u32,
    },
    /// The weak-head normal form of a recursive argument's type is no family.
    RecArgNotInductive {
        whnf: Term,
    },
}

/// Where in an environment a rule is broken, by the place of the item in its list from 0.
#[derive(Clone, Copy, Debug, PartialEq, Eq)]
pub enum Place {
    Level(u32),
    Constraint(u32),
    Declaration(u32),
    Main,
}
