//! The headline as a law: from an accepted environment to every run of its module.
//!
//! `values_are_answered` (clause `headline`, `specs/Headline.antt`) is the sentence that the product is for. What the directed rules accept is derived by the
//! typing rules; erasure makes a program of it, and the passes and emission a module, which is valid; and where main, of a first-order type, evaluates to a value by
//! weak call by value, every long enough run of the module answers exactly that value or is exhausted after a refused grow of memory, within bounds on steps and on
//! memory that the evaluation's nodes give, and on frames by the call depth.
//!
//! What needs no evaluation of main stands apart: acceptance (`accepted_environments_are_derived`, `derived`); that the erased program has the form and is no larger
//! than its source (`erased_programs_are_within`, `within`); the runs of a program that evaluates to data (`evaluated_programs_answer`, `runs`; `returns_take_matches`,
//! `matches`); the text of data (`fitting_data_is_written`, `text`); and that a machine with the maximum as its bound is exhausted for want of maximum alone
//! (`machines_refuse_past_maximum`, `past`).
//!
//! Below stand the laws of the layers: `rule_laws`, `type_laws`, `read_counts`, `erase_laws`, `erase_rules`, `lambda_box`, `box_passes`, `back_end`, and the texts of
//! `first_order`; above stands `driver`.
#![tactic(auto)]

ghost use Rattle.headline.specs.AcceptedProgram.{AcceptedAreDerived, ErasedProgramsAreWithin};
ghost use Rattle.headline.specs.EveryRun.{EvaluatedProgramsAnswer, ReturnsTakeMatches};
ghost use Rattle.headline.specs.GrantsAll.{MachinesRefusePastMaximum};
ghost use Rattle.headline.specs.Headline.{Headline};
ghost use Rattle.headline.specs.WrittenData.{FittingDataIsWritten};

/// What the directed rules accept of an environment that some text spells is well formed: each declaration and main have a derivation by the typing rules.
pub fn accepted_environments_are_derived()
    ensures derived { AcceptedAreDerived }
{}

/// The program to which an accepted environment is erased has the form of programs, no more words than its source, and no family with more constructors: so it is
/// within the limits of the passes where it fits them.
pub fn erased_programs_are_within()
    ensures within { ErasedProgramsAreWithin }
{}

/// Where main of a program within the limits of the passes evaluates to data, every run of its module answers the data or is exhausted, within bounds on steps,
/// on memory and on the frames that stand at once, and no sooner than after as many steps as the saturated program's evaluation has matches.
pub fn evaluated_programs_answer()
    ensures runs { EvaluatedProgramsAnswer }
{}

/// Where main of the saturated program evaluates to data, each run of the module that returns has made at least as many steps as that evaluation has matches.
pub fn returns_take_matches()
    ensures matches { ReturnsTakeMatches }
{}

/// Data that fits the types of a first-order set has a text by the names of constructors, and that is what is written of it.
pub fn fitting_data_is_written()
    ensures text { FittingDataIsWritten }
{}

/// A machine whose bound on its pages is at least the module's maximum refuses no grow but one past that maximum.
pub fn machines_refuse_past_maximum()
    ensures past { MachinesRefusePastMaximum }
{}

/// The headline: of an accepted environment the module validates, and where main, of a first-order type, evaluates to a value, that is data, and every long enough
/// run of the module answers exactly that or is exhausted.
pub fn values_are_answered()
    ensures headline { Headline }
{}
