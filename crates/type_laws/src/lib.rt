//! The laws of bare types in accepted environments and well-formed contexts.
//!
//! Each type of a term has a sort (`types_have_sorts`), reduction keeps types (`reduction_keeps_types`), two types of a term have one below both
//! (`types_have_a_common_one`), and what evaluation leaves of a family is a constructor (`values_are_constructors`). So each evaluation of a typed closed term is
//! lawful, by which the simulation by erased programs goes (`evaluations_are_lawful`).
//!
//! Below stand `calculus_rules` with the definitions, `equality_laws` with confluence and `typing_laws` with generation, weakening and substitution; above stand
//! `erase_laws`, whose simulation goes by these laws, `headline`, which by them asks of main's evaluation nothing more, and `progress`, which
//! says where evaluation may get stuck.
#![tactic(auto)]

ghost use Rattle.type_laws.specs.Laws.{
  TypesHaveSorts,
  ReductionKeepsTypes,
  TypesHaveACommonOne,
  ValuesAreConstructors,
  FamiliesStay,
  EvaluationsAreLawful,
  WholeEvaluationsAreLawful,
};

/// Validity: in a well-formed context each bare type of a term has a sort.
pub fn types_have_sorts()
    ensures sorts { TypesHaveSorts }
{}

/// Subject reduction: a step keeps each bare type.
pub fn reduction_keeps_types()
    ensures kept { ReductionKeepsTypes }
{}

/// Principality: two bare types of a term have one below both.
pub fn types_have_a_common_one()
    ensures common { TypesHaveACommonOne }
{}

/// Canonicity: a closed value of a family is one of its constructors with all parameters and arguments.
pub fn values_are_constructors()
    ensures built { ValuesAreConstructors }
{}

/// Each evaluation of a typed closed term is lawful, and of a term of first-order type the whole is; no typed constructor of a family outside Prop, with all its
/// parameters and arguments, is erasable.
pub fn evaluations_are_lawful()
    ensures stay { FamiliesStay }
    ensures lawful { EvaluationsAreLawful }
    ensures whole { WholeEvaluationsAreLawful }
{}
