//! What the check has of the laws of the calculus: inference finds principal types, and a proof of False that is accepted has no value.
//!
//! - `inference_finds_principal_types`: what the directed rules infer for a term is below each of its types, in any context and whatever their units (`least`), so in a well-formed context it is a
//!   principal type (`principal`), and the type that the check finds for main is below each of main's (`main`). They need not end with a type where there is one: units, nested rules and what they make are bounded;
//! - `empty_families_never_end`: the directed evaluation of a closed term of a family without constructors, as False is, takes all units or meets a constant without a body (`ends`), and where there is
//!   none it takes all units, however many (`never`);
//! - `checked_false_has_no_value`: where the check accepts an environment whose text declares such a family, and main has a type of it, main has no value (`values`), and where each constant that is
//!   declared has a body its evaluation never ends (`never`). That there is no such main isn't claimed.
//!
//! Below stand `pc_rules` with the directed rules, `rule_laws` with their soundness, `progress`, and `metatheory` with the laws of the calculus; above stands `answer_laws`.
#![tactic(auto)]

ghost use Rattle.checked_laws.specs.CheckedFalse.{CheckedFalseHasNoValue, CheckedFalseNeverEnds};
ghost use Rattle.checked_laws.specs.EmptyFamilies.{EmptyFamiliesEndAtAxioms, EmptyFamiliesNeverEnd};
ghost use Rattle.checked_laws.specs.InferredTypes.{InferredTypesAreLeast, InferenceFindsPrincipalTypes, MainsTypeIsLeast};

/// What the directed rules infer is below each type of the term, and in a well-formed context a principal type; so the type that they find for main is below each of main's.
pub fn inference_finds_principal_types()
    ensures least { InferredTypesAreLeast }
    ensures principal { InferenceFindsPrincipalTypes }
    ensures main { MainsTypeIsLeast }
{}

/// The evaluation of a closed term of a family without constructors ends at no other place than a constant without a body, and without such constants it never ends.
pub fn empty_families_never_end()
    ensures ends { EmptyFamiliesEndAtAxioms }
    ensures never { EmptyFamiliesNeverEnd }
{}

/// Where main of an environment that the check accepts has a type of a family that the environment declares without constructors, it has no value, and without axioms its evaluation never ends.
pub fn checked_false_has_no_value()
    ensures values { CheckedFalseHasNoValue }
    ensures never { CheckedFalseNeverEnds }
{}
