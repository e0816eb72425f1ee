//! Validation of WebAssembly modules (Core Specification 2, chapter 3 and the appendix "Validation Algorithm"; the profile of `wasm_core`).
//!
//! `validate` answers the module as a valid one exactly where it has a typing (`valid`), and hands it back otherwise (`handed_back`), with the
//! place at which it first fails (`refused`): the least id of a section that isn't sound; or the first function without a typing and the
//! least place in its body such that no body that begins so has one. By `wasm_core`'s law `first_fault_is_unique` there is one such
//! answer. Want of memory is the one free answer.
//!
//! - `outside`: the sections other than the bodies, by rising id; `names`: export names, through an ordered set.
//! - `checker`: the operands that are known at a place of a body, and the open blocks; it is a place of `wasm_core`'s pass.
//! - `plain`, `branches`, `tail_calls`: each instruction, exactly as the pass has it. `body`: all instructions one after another (`pass_stop`), and
//!   what that says of typing (`body_fault`).
//!
//! The definition `BodyPass` says where the pass stops, and `proofs/Stopping` that this is where typing fails. The time is linear in the
//! module, but for the order of export names; nothing recurses over nests. `wasm_core` stands below; `module_run` stands above.
#![tactic(auto)]

mod body;
mod branches;
mod checker;
mod names;
mod outside;
mod plain;
mod tail_calls;
mod validation;

pub use validation::{NotValid, Why, validate};
