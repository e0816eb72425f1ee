//! Plain environments on their way to an answer: each stage of `exec` computes on a constructor without arguments, so no stage refuses it.
//!
//! An environment of blocks whose constructors take no argument, with a constructor as main, is what a completeness of the text alone can be said of. Its main's
//! type has itself as first-order set (`plain_types_are_found`, clause `found`); main is erased to itself (`plain_mains_are_erased`, `erased`), which evaluates in
//! one node to data; the program is within all limits of the passes, and its module within 16 MiB (`plain_programs_fit`); and every run of the module with enough
//! steps answers the constructor (`plain_runs_answer`, `answers`).
//!
//! Below stand the laws of the layers: `pc_rules`, `erase_rules`, `back_end`, `compile`, `module_run` and `headline`; above stands `driver`.
#![tactic(auto)]

ghost use Rattle.plain_programs.specs.Laws.{
  PlainTypesAreFound,
  PlainMainsAreErased,
  PlainProgramsEvaluate,
  PlainProgramsFit,
  PlainModulesAreSmall,
  PlainRunsAnswer,
};

/// The search finds the type of a constructor without arguments as the only one of its first-order set, in one unit; and the constructor fits it.
pub fn plain_types_are_found()
    ensures found { PlainTypesAreFound }
{}

/// Directed erasure gives a constructor without arguments of a family of sort Set itself, in two units, as the main of a program without constants.
pub fn plain_mains_are_erased()
    ensures erased { PlainMainsAreErased }
{}

/// A program whose main is a constructor without arguments evaluates in one node to data, is within the limits of the passes, and has a small module.
pub fn plain_programs_fit()
    ensures evaluates { PlainProgramsEvaluate }
    ensures fits { PlainProgramsFit }
    ensures small { PlainModulesAreSmall }
{}

/// A run of such a program's module ends with the constructor, where 1,052,672 steps may be made: no grow is refused that it needs.
pub fn plain_runs_answer()
    ensures answers { PlainRunsAnswer }
{}
