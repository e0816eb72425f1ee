//! Known calls: the emission of modules, in which functions that are known are called directly: its definition, its code and its laws. It ends the chain of passes.
//!
//! Called through the table, a function of two arguments makes two closures and is called twice. Here an environment may hold a
//! closure that is known (`specs/KnownPlaces.antt`): its function, and where its captured words are, seven at most. Where a closure or a partial application
//! is known, and read as a word nowhere, it is made nowhere; a saturated call of a known function calls its worker, whose parameters are the captured words and
//! the argument; a worker's tail call of itself is a branch to its beginning; every other call in the tail of a function takes that function's frame;
//! and what calls through the table enter is a stub that calls the worker in its own place.
//! `KnownCode` says the instructions, `KnownTests` the tests by which a match finds its branch, `KnownModule` the module, and `KnownCalls` that for a main that takes
//! arguments from memory. A function of over seven captured words has its body behind the table, and no worker.
//!
//! `emit` makes the module of a lifted program (clause `is`), which is valid (`valid`), and refuses exactly where a function would have over 50,000 locals (`few`,
//! `refused`); `emit_call` makes the module for calls, with the same clauses. Both are linear in the program: `marks` finds in one walk which bindings are read as
//! words, and which branches read their only variable twice, `closures` which bindings are known, `alternatives` which branches of a match are of which kind, with
//! their tests, and `blocks` pushes the instructions.
//!
//! The laws are public functions with empty bodies: every run of the module answers the data to which main evaluates, or is exhausted after a refused grow,
//! within a bound on steps, and its heap ends within the bytes of the evaluation's blocks (`known_runs_answer`); the status tells of a refused grow
//! (`known_status_tells`); the module is valid (`known_modules_are_valid`) and can be spelled (`known_modules_can_be_spelled`); its bytes and locals are
//! bounded by the program's size (`known_bytes_are_bounded`); and the same of programs in A-normal form (`known_programs_in_normal_form_answer`) and of a
//! main with arguments (`known_calls_of_main_answer`).
//!
//! Below stands `wasm_emit`, whose calls make what all modules have, and whose rules of the machine, memory and evaluation the proofs cite; above stand `back_end`, with the laws of all passes, and `compile`.
#![tactic(auto)]

mod alternatives;
mod blocks;
mod bodies;
mod calls;
mod closures;
mod emission;
mod instructions;
mod laws;
mod marks;
mod places;
mod site;
mod times;
mod words;

pub use emission::{emit, emit_call};
pub use laws::{
    known_bytes_are_bounded, known_calls_of_main_answer, known_modules_are_valid,
    known_modules_can_be_spelled, known_programs_in_normal_form_answer, known_runs_answer,
    known_status_tells,
};
pub use places::Place;
pub use site::{Kind, Position};
pub use times::Times;
pub use words::{Word, Words};
