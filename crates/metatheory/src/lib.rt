//! What a theorist asks of a calculus, as laws of its rules in accepted environments (PCUIC: Sozeau et al., "Coq Coq Correct!", POPL 2020): what False has, when terms are equal, which
//! type of a term is the least, and what has no type.
//!
//! - `empty_families_have_no_values` (`values`): no closed term of a family without constructors, as False is, has a value. That there is no such term isn't claimed: that would be consistency,
//!   which stands on normalisation;
//! - `equality_is_church_rosser`: two terms are equal exactly where they reduce, by the steps of `calculus_rules`, to terms that are the same but for sorts which are at most each other (`meet`,
//!   `equal`), so reduction is confluent (`confluent`), in a context of any values;
//! - `terms_have_principal_types` (`principal`): each term that has a type in a well-formed context has one that is below all its types;
//! - and against wrong definitions, which no edit of code shows: no sort is one of itself (`no_sort_in_itself`, `refused`); no constructor with all its arguments takes one more
//!   (`built_terms_take_no_more`, `refused`); no match on a disjunction or an existential gives data (`proofs_give_no_data`, `disjunction`, `existential`); the fixpoint `f x := f x` isn't guarded and has no
//!   type (`endless_calls_are_unguarded`, `unguarded`, `untyped`); no accepted environment keeps a family that stands left of an arrow in its own constructor
//!   (`negative_blocks_are_refused`, `refused`).
//!
//! Below stand `calculus_rules` with the rules, `equality_laws` with confluence, and `type_laws` with subject reduction and canonicity; above stands `checked_laws`,
//! what the check has of these laws.
#![tactic(auto)]

ghost use Rattle.metatheory.specs.EmptyFamilies.{EmptyFamiliesHaveNoValues};
ghost use Rattle.metatheory.specs.ChurchRosser.{EqualTermsMeet, MeetingTermsAreEqual, ReductionIsConfluent};
ghost use Rattle.metatheory.specs.PrincipalTypes.{TermsHavePrincipalTypes};
ghost use Rattle.metatheory.specs.Untypable.{
  NoSortInItself,
  BuiltTermsTakeNoMore,
  DisjunctionsGiveNoData,
  ExistentialsGiveNoData,
  EndlessCallsAreUnguarded,
  EndlessCallsHaveNoType,
  NegativeBlocksAreRefused,
};

/// No closed term of a family without constructors has a value.
pub fn empty_families_have_no_values()
    ensures values { EmptyFamiliesHaveNoValues }
{}

/// Two terms are equal exactly where they reduce to terms that are the same but for sorts which are at most each other; so reduction is confluent.
pub fn equality_is_church_rosser()
    ensures meet { EqualTermsMeet }
    ensures equal { MeetingTermsAreEqual }
    ensures confluent { ReductionIsConfluent }
{}

/// Each term that has a type in a well-formed context has a principal one: a type that is below all its types.
pub fn terms_have_principal_types()
    ensures principal { TermsHavePrincipalTypes }
{}

/// No sort has itself as a type.
pub fn no_sort_in_itself()
    ensures refused { NoSortInItself }
{}

/// A constructor with all its parameters and arguments, applied to one more, has no type.
pub fn built_terms_take_no_more()
    ensures refused { BuiltTermsTakeNoMore }
{}

/// No match on a family in Prop that has two constructors or more, or one with an argument whose sort isn't Prop, has the type of a family outside Prop.
pub fn proofs_give_no_data()
    ensures disjunction { DisjunctionsGiveNoData }
    ensures existential { ExistentialsGiveNoData }
{}

/// The fixpoint `f x := f x` isn't guarded, so it has no type.
pub fn endless_calls_are_unguarded()
    ensures unguarded { EndlessCallsAreUnguarded }
    ensures untyped { EndlessCallsHaveNoType }
{}

/// No accepted environment keeps a block with a constructor one of whose arguments names the block's families left of an arrow.
pub fn negative_blocks_are_refused()
    ensures refused { NegativeBlocksAreRefused }
{}
