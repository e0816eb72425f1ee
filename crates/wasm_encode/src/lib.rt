//! Writing a valid WebAssembly module as its shortest bytes (Core Specification 2, chapter 5 "Binary Format"; the profile of `wasm_core`).
//!
//! `encode` writes exactly the bytes that the definition `ShortestBytes` gives, which spell the module, and answers `ModuleBytes` exactly where
//! they would pass 16 MiB (`writes`); that no bytes spell the module and are fewer is a theorem (`none_is_shorter`). By `wasm_decode`'s clause
//! `answers`, reading what is written answers the module again. Want of memory is the one free answer.
//!
//! The code puts each thing after what is there, by a function with the name of the definition's: `numbers`, `types`, `declarations`,
//! `bodies`, `file`. A section and a body are put together on their own first, since their size comes before them.
//!
//! `wasm_core` stands below; `module_run` and `driver` stand above.
#![tactic(auto)]

mod bodies;
mod declarations;
mod file;
mod numbers;
mod types;

pub use file::{encode, none_is_shorter};
