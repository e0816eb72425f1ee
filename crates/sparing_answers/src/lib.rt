//! What programs after erasure, and their modules, answer of a sparing evaluation, and of one over lemmas.
//!
//! A sparing evaluation (`sparing_laws`) leaves alone what is erasable, so main may have a value by it where a proof rests on an axiom and evaluation has none. What is promised:
//! - `sparing_is_followed` (`followed`): whatever value the erased program has is the data of main's sparing value;
//! - `sparing_values_are_answered` (`answered`): where the directed rules accept an environment, every long enough run of the module that is made of it answers that data or is exhausted, within the bounds of the
//!   headline, where the erased program has a value.
//!
//! That the erased program has one is a premise, and can't be left out: where an axiom is false, a function at any type may run on for ever in it whose argument sparing evaluation leaves alone at a proposition
//! (`docs/EVALUATION.md`). Where main has a value by evaluation, the erased program has one too (`headline`).
//!
//! Where main has a value over lemmas (`sparing_laws`), the erased program has one, in no more nodes, so no premise is asked:
//! - `lemmas_are_followed` (`followed`): it is the data of main's value over lemmas;
//! - `values_over_lemmas_are_answered` (`answered`): every long enough run of the module answers that data or is exhausted, as the headline has it of evaluation.
//!
//! Below stand `sparing_laws`, `erase_laws` with erasure, `lambda_box` with evaluation after it, and `headline` with the module's runs.
#![tactic(auto)]

ghost use Rattle.sparing_answers.specs.Laws.{SparingIsFollowed, SparingValuesAreAnswered};
ghost use Rattle.sparing_answers.specs.LemmaLaws.{LemmasAreFollowed, ValuesOverLemmasAreAnswered};

/// Whatever value the erased program has is the data of main's sparing value.
pub fn sparing_is_followed()
    ensures followed { SparingIsFollowed }
{}

/// The module of an accepted environment answers the data of main's sparing value, where the erased program has a value.
pub fn sparing_values_are_answered()
    ensures answered { SparingValuesAreAnswered }
{}

/// Where main evaluates over lemmas, the erased program evaluates to the data that the value is, in no more nodes.
pub fn lemmas_are_followed()
    ensures followed { LemmasAreFollowed }
{}

/// The module of an accepted environment answers the data of main's value over lemmas, within the headline's bounds.
pub fn values_over_lemmas_are_answered()
    ensures answered { ValuesOverLemmasAreAnswered }
{}
