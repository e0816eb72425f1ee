//! Sparing evaluation and evaluation over lemmas: evaluations of the source that may leave types and proofs alone, and their laws.
//!
//! Evaluation (`calculus_rules`) evaluates whatever is handed on, proofs too, so it has no value where a proof rests on an axiom. A sparing evaluation (`specs/SparingEvaluation.antt`) may leave what is erasable
//! as it stands where it is handed on or stored. What is promised:
//! - `evaluations_are_sparing` (`sparing`): each evaluation is a sparing one, with the same value and as many nodes;
//! - `sparing_keeps_types` (`typed`, `equals`): a sparing evaluation of a typed closed term keeps its types, and lies in equality; `data_is_never_left` (`evaluated`): no closed term of a family outside Prop is
//!   erasable, so what is left alone is never data;
//! - `sparing_values_are_data` (`reads`): of a first-order type the value is data; and `sparing_data_is_one` (`one`, `same`): it is the same data whatever was left alone, and that of evaluation where there is one.
//!
//! Evaluation over lemmas (`specs/LemmaEvaluation.antt`) leaves less alone, and so more is promised of it above: a constant without a body that is erasable, as a lemma is whose proof a dump leaves out, is a value, and takes arguments.
//! - `evaluations_are_over_lemmas` (`over`): each evaluation of a typed closed term is one over lemmas, with the same value and as many nodes;
//! - `over_lemmas_keeps_types` (`typed`, `equals`), `values_over_lemmas_are_data` (`reads`), `data_over_lemmas_is_one` (`one`, `same`): as of sparing evaluation, and with the same data as that.
//!
//! What the erased program makes of both is said above. Below stand `calculus_rules` with evaluation, erasable terms and data, `equality_laws` with confluence, and `type_laws` with subject reduction.
#![tactic(auto)]

ghost use Rattle.sparing_laws.specs.Laws.{
  EvaluationsAreSparing,
  SparingKeepsTypes,
  SparingIsEquality,
  DataIsNeverLeft,
  SparingValuesAreData,
  SparingDataIsOne,
  SparingGivesTheSameData,
};
ghost use Rattle.sparing_laws.specs.LemmaLaws.{
  EvaluationsAreOverLemmas,
  OverLemmasKeepsTypes,
  OverLemmasIsEquality,
  ValuesOverLemmasAreData,
  DataOverLemmasIsOne,
  SparingGivesTheSameAsOverLemmas,
};

/// Each evaluation is a sparing one, with the same value and as many nodes.
pub fn evaluations_are_sparing()
    ensures sparing { EvaluationsAreSparing }
{}

/// A sparing evaluation of a typed closed term keeps its types, and lies in equality.
pub fn sparing_keeps_types()
    ensures typed { SparingKeepsTypes }
    ensures equals { SparingIsEquality }
{}

/// No closed term of a family that isn't in Prop is erasable.
pub fn data_is_never_left()
    ensures evaluated { DataIsNeverLeft }
{}

/// The value of a term of first-order type is data.
pub fn sparing_values_are_data()
    ensures reads { SparingValuesAreData }
{}

/// The data is the same whatever was left alone, and that of evaluation where there is one.
pub fn sparing_data_is_one()
    ensures one { SparingDataIsOne }
    ensures same { SparingGivesTheSameData }
{}

/// Each evaluation of a typed closed term is one over lemmas, with the same value and as many nodes.
pub fn evaluations_are_over_lemmas()
    ensures over { EvaluationsAreOverLemmas }
{}

/// An evaluation over lemmas of a typed closed term keeps its types, and lies in equality.
pub fn over_lemmas_keeps_types()
    ensures typed { OverLemmasKeepsTypes }
    ensures equals { OverLemmasIsEquality }
{}

/// The value over lemmas of a term of first-order type is data.
pub fn values_over_lemmas_are_data()
    ensures reads { ValuesOverLemmasAreData }
{}

/// That data is one, and the same as each sparing evaluation gives.
pub fn data_over_lemmas_is_one()
    ensures one { DataOverLemmasIsOne }
    ensures same { SparingGivesTheSameAsOverLemmas }
{}
