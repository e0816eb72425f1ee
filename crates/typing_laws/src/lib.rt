//! Laws of bare typing (PCUIC: Sozeau et al., "Coq Coq Correct!", POPL 2020, section 2): weakening, substitution and generation.
//!
//! Each function has no result but its contract, which is a statement of `specs/Laws.antt`. Bare types are those of the typing rules
//! without the guard of fixpoints, which is no part of these laws. What is promised:
//! - `weakening_by_entries`, `weakening_by_declarations`, `closed_substitution`: equality (`equality`), cumulativity (`below`) and bare
//!   types (`types`) are kept where entries are put into the middle of a context, where the environment gets a declaration more, and where a
//!   term is put in for an entry; for a defined entry the term is equal to the entry's value (`Fits`);
//! - `generation`: what a type says of the parts of a term, one clause for each former;
//! - `typed_terms_are_closed`, and `lawful_evaluation_is_equality`, of which lawfulness is a premise;
//! - `data_is_along_each_set`: data along one first-order set of a type is data along each (`along`), and no other data (`one`).
//!
//! The definitions of this crate: `specs/Substituting.antt` (contexts in whose middle something is put in) and `TypedParts` (what generation gives).
//!
//! Below stands `calculus_rules` with the rules; above stand `equality_laws` (confluence), `type_laws` (subject reduction and its like) and
//! `erase_laws` (the laws of erasure).
#![tactic(auto)]

ghost use Rattle.typing_laws.specs.Laws.{
  WeakeningOfEquality,
  WeakeningOfBelow,
  WeakeningOfTypes,
  SubstitutionOfTypes,
  SubstitutionOfEquality,
  SubstitutionOfBelow,
  DeclarationsKeepTypes,
  DeclarationsKeepEquality,
  DeclarationsKeepBelow,
  LawfulIsEqual,
  TypedIsClosed,
  VariablesGenerate,
  SortsGenerate,
  ProductsGenerate,
  LambdasGenerate,
  LetsGenerate,
  ApplicationsGenerate,
  ConstantsGenerate,
  FamiliesGenerate,
  ConstructorsGenerate,
  MatchesGenerate,
  FixpointsGenerate,
  DataIsAlongEach,
  ReadingIsDetermined,
};

/// Equality, cumulativity and bare types are kept where entries are put into the middle of the context.
pub fn weakening_by_entries()
    ensures equality { WeakeningOfEquality }
    ensures below { WeakeningOfBelow }
    ensures types { WeakeningOfTypes }
{}

/// And where a declaration is put before the others.
pub fn weakening_by_declarations()
    ensures equality { DeclarationsKeepEquality }
    ensures below { DeclarationsKeepBelow }
    ensures types { DeclarationsKeepTypes }
{}

/// They are kept where a term that fits is put in for an entry: one of the entry's type that is equal to its value, if it has one.
pub fn closed_substitution()
    ensures equality { SubstitutionOfEquality }
    ensures below { SubstitutionOfBelow }
    ensures types { SubstitutionOfTypes }
{}

/// A term with a bare type has no variables but its context's.
pub fn typed_terms_are_closed()
    ensures closed { TypedIsClosed }
{}

/// Generation: where a former has a type, bare or guarded, its parts have types that fit, and what its own rule gives is below the type.
pub fn generation()
    ensures variables { VariablesGenerate }
    ensures sorts { SortsGenerate }
    ensures products { ProductsGenerate }
    ensures lambdas { LambdasGenerate }
    ensures lets { LetsGenerate }
    ensures applications { ApplicationsGenerate }
    ensures constants { ConstantsGenerate }
    ensures families { FamiliesGenerate }
    ensures constructors { ConstructorsGenerate }
    ensures matches { MatchesGenerate }
    ensures fixpoints { FixpointsGenerate }
{}

/// A lawful evaluation lies in equality.
pub fn lawful_evaluation_is_equality()
    ensures equal { LawfulIsEqual }
{}

/// A value that is data along one first-order set of a type is the same data along each, and no other data.
pub fn data_is_along_each_set()
    ensures along { DataIsAlongEach }
    ensures one { ReadingIsDetermined }
{}
