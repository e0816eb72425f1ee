//! The compiler: from a program after erasure to its module, as the list of the passes.
//!
//! `compile` drops matches on propositional families, saturates constructors, puts constants with one use in its place, drops parameters that are always box, brings
//! the program into A-normal form, lifts it and emits its module, which is exactly the module of `back_end`'s theorems (`is`); each refusal but want of memory has its
//! cause, of the program alone (`refused`), and the program has a module where it has none (`fits`). `compile_call` does the same for the module of calls of a main that is a function. `one_cause` says that no two causes stand together. Where main
//! evaluates by substitution to data, every run of the module answers the data or is exhausted, within bounds (`compiled_modules_answer`).
//!
//! Below stand the passes and `back_end`; above, the driver writes, reads, checks and runs the module.
#![tactic(auto)]

mod fault;
mod passes;

ghost use Rattle.compile.specs.Passes.{CausesAreOne, FittingCallsAreValid, FittingProgramsAnswer, FittingProgramsAreValid, FittingProgramsAreWithin, MachinesAreMade, MachinesAreMadeForCalls};

pub use fault::CompileFault;
pub use passes::{compile, compile_call};

/// No program is refused for two causes, and none that has a module is refused.
pub fn one_cause()
    ensures one { CausesAreOne }
{}

/// A program that has a module meets the conditions of the back end's theorems.
pub fn fitting_programs_are_within()
    ensures within { FittingProgramsAreWithin }
{}

/// Where main of a program that has a module evaluates by substitution to data, every run of the module answers that data or is exhausted after a refused grow,
/// within the bounds on steps and memory. The module is valid.
pub fn compiled_modules_answer()
    ensures runs { FittingProgramsAnswer }
    ensures valid { FittingProgramsAreValid }
{}

/// A machine with so many pages is made of the module of each program that has one: no entry is missing, and neither pages, table nor segments are refused.
pub fn machines_are_made()
    ensures made { MachinesAreMade }
{}

/// The module for calls of a program that has a module is valid, for any number of arguments, and a machine is made of it for a host that gives arguments.
pub fn call_modules_are_valid()
    ensures valid { FittingCallsAreValid }
    ensures made { MachinesAreMadeForCalls }
{}
