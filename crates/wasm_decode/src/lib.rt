//! Reading a WebAssembly module from its bytes (Core Specification 2, chapter 5 "Binary Format"; the profile of `wasm_core`).
//!
//! `decode` answers exactly as the definition of module bytes says (`explains`): the module that the bytes spell (`answers`), or the offset of
//! the first item that has no spelling in its place within its part (`refuses`); that no bytes do two of these is `wasm_core`'s law
//! `reading_is_exact`. A module that it gives meets the condition of modules (`whole`). Want of memory is the one free answer.
//!
//! The code reads each byte once, from left to right, and never recurses over nesting: open blocks are a list. `items` reads bytes, numbers
//! (`leb`), names and parts, each against the item of the same name in the definition; `types`, `declarations` and `bodies` have one function
//! for each production of the grammar; `file` goes over the sections.
//!
//! `wasm_core` stands below; `module_run` stands above.
#![tactic(auto)]

mod bodies;
mod cursor;
mod declarations;
mod file;
mod found;
mod items;
mod leb;
mod types;

pub use file::decode;
