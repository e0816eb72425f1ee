//! The back end as a whole: the passes from programs after erasure to modules in their order, and what their laws say together.
//!
//! `passed` of `specs/BackEnd.antt` is the list of the passes: matches on propositional families are dropped, constructors saturated, constants with one use put in its place,
//! parameters that are always box dropped, the program brought into A-normal form and lifted; `module_of` of `known_calls` is its module. Where main of a program of the form
//! evaluates by substitution to data,
//! every run of that module answers the data or is exhausted after a refused grow (`modules_answer`, clause `runs`), within bounds on steps and memory that
//! the number of nodes of the evaluation gives (`steps_and_memory_are_bounded`), and no sooner than after as many steps as there are matches
//! (`answers_take_as_many_steps_as_matches`). Its shortest bytes and its locals are bounded by the nodes of the saturated program (`modules_are_small`). Nothing is asked of the program's source.
//!
//! Below stand the crates of the passes, `lambda_box`, `wasm_emit` and `known_calls`; above stand `compile`, whose code makes that module, and `headline`.
#![tactic(auto)]

ghost use Rattle.back_end.specs.BackEnd.{ModulesAnswer, ModulesAreValid, ModulesCanBeSpelled};
ghost use Rattle.back_end.specs.ModuleSizes.{CallModulesAreSmall, LocalsAreFew, ModulesAreSmall};
ghost use Rattle.back_end.specs.StepsAndMemory.{StepsAndMemoryAreBounded};
ghost use Rattle.back_end.specs.StepsAtLeast.{AnswersTakeAsManySteps};

/// Where main evaluates by substitution to data, every run of the module that all passes make answers that data or is exhausted, within a bound on
/// steps and on words of memory; the module is valid, and can be spelled where no function has too many locals.
pub fn modules_answer()
    ensures runs { ModulesAnswer }
    ensures valid { ModulesAreValid }
    ensures spelled { ModulesCanBeSpelled }
{}

/// No run makes more steps than `1,024 * n * (W + m)`, where n is the number of nodes of the evaluation by substitution, W the program's words and m the
/// greatest number of constructors; and where `32 * n * W + 8` bytes are within the maximum, a run traps only where a grow within the maximum was refused.
pub fn steps_and_memory_are_bounded()
    ensures bounded { StepsAndMemoryAreBounded }
{}

/// Each run of the module of a saturated program that returns has made at least as many steps as the evaluation of main by substitution has matches.
pub fn answers_take_as_many_steps_as_matches()
    ensures least { AnswersTakeAsManySteps }
{}

/// The shortest bytes of the module are at most `64 * s * W + 4,096`, where s is the number of nodes of the saturated program and W the program's words. So
/// a module has over 16,777,216 bytes only where that number is greater. Those of a module for calls are at most `63 * s * W + 128 * k + 4,096`, where k is the number of arguments.
///
/// A function of it has over 50,000 locals besides its parameters only where s is over 50,000.
pub fn modules_are_small()
    ensures bytes { ModulesAreSmall }
    ensures calls { CallModulesAreSmall }
    ensures locals { LocalsAreFew }
{}
