//! The headline for calls as a law: from an accepted environment, whose main is a function, to every run of its module on arguments that a host has stored.
//!
//! `calls_are_answered` (clause `headline`, `specs/CallHeadline.antt`) is the sentence: where main's type has a signature, and main, applied to the source terms of
//! data along it, evaluates to a value by weak call by value, that is data, and every long enough run of the module for calls, from a store that holds the arguments'
//! data, answers exactly that or is exhausted after a refused grow of memory. There is no premise on the evaluation, and none that the applied term has a type: it has one.
//!
//! What needs no source stands apart: the runs of a program whose main, applied to terms of data, evaluates to data, with bounds on steps, on memory and on frames by the
//! evaluation (`called_programs_answer`, `runs`), that the module is valid (`valid`) and that its status is 1 only after a refused grow (`status`). The store that a
//! host makes is told in `specs/HostedCall.antt`, in the words that the calls which store arguments use.
//!
//! Below stand the laws of the layers: `applied_terms`, `erase_rules`, `box_passes`, `shrink_passes`, `anf_convert`, `closure_lift`, `wasm_emit`, `known_calls`, `back_end`, and
//! `headline` with what the two headlines share; above stand `stored_calls`, which
//! says that storing makes such a store, and `export_laws`, what the job `export` owes.
#![tactic(auto)]

ghost use Rattle.call_answers.specs.CallHeadline.{CallHeadline};
ghost use Rattle.call_answers.specs.EveryCall.{CallModulesAreValid, CallStatusTells, CalledProgramsAnswer};

/// Where main of a program within the limits of the passes, applied to terms of data, evaluates to data, every run of its module for calls, from a store that holds
/// the arguments, answers the data or is exhausted, within bounds on steps, on memory and on frames; the module is valid, and its status is 1 only after a refused grow.
pub fn called_programs_answer()
    ensures runs { CalledProgramsAnswer }
    ensures valid { CallModulesAreValid }
    ensures status { CallStatusTells }
{}

/// The headline for calls: of an accepted environment whose main is a function on data the module for calls validates, and where main, applied to the source terms of
/// arguments, evaluates to a value, that is data, and every long enough run, from a store that holds the arguments, answers exactly that or is exhausted.
pub fn calls_are_answered()
    ensures headline { CallHeadline }
{}
