//! Progress: the evaluation of typed closed terms gets stuck at nothing but axioms.
//!
//! In an accepted environment the directed evaluation of a closed term with a bare type ends, whatever its units, with a value of that type, without units, or at a
//! constant without a body (`evaluation_progresses`; of main in a well-formed environment `main_progresses`). So what is stuck is such a constant (`stuck_at_axioms`), and
//! where each constant has a body nothing is stuck (`nothing_is_stuck`) and a term of a family gives one of its constructors, where the units suffice
//! (`families_are_built`). A value of first-order type is data (`first_order_values_are_data`). That evaluation ends isn't claimed.
//!
//! Below stand `pc_rules` with the directed evaluation, and `type_laws`, by which evaluation keeps types and closed values of a family are constructors; above stands
//! `job_laws`, at what the job `eval` is stuck.
#![tactic(auto)]

ghost use Rattle.progress.specs.Laws.{EvaluationProgresses, MainProgresses, StuckAtAxioms, NothingIsStuck, FamiliesAreBuilt, FirstOrderValuesAreData};

/// Progress: the evaluation of a typed closed term ends with a value of its type, without units, or at a constant without a body.
pub fn evaluation_progresses()
    ensures progress { EvaluationProgresses }
{}

/// So does the evaluation of main in a well-formed environment.
pub fn main_progresses()
    ensures main { MainProgresses }
{}

/// What the evaluation of a typed closed term is stuck with is a constant without a body.
pub fn stuck_at_axioms()
    ensures axioms { StuckAtAxioms }
{}

/// Where each constant has a body, no evaluation of a typed closed term is stuck.
pub fn nothing_is_stuck()
    ensures never { NothingIsStuck }
{}

/// Where each constant has a body, a closed term of a family evaluates to one of its constructors with all parameters and arguments, or no unit is left.
pub fn families_are_built()
    ensures built { FamiliesAreBuilt }
{}

/// What the evaluation of a closed term of first-order type gives is data along the type's first-order set.
pub fn first_order_values_are_data()
    ensures readable { FirstOrderValuesAreData }
{}
