//! The environment that a text spells: names and levels as numbers, terms as shared trees.
//!
//! `read_env` reads a dumped environment. Names and levels are numbered by first use, levels from `Set` on, which is 0; universes are put in
//! normal form; a cast is a function applied. What a text means is `specs/Numbered.antt`, above the grammar of dumps. Each declaration is numbered as soon as it
//! is read, so that the tree of one at a time stands beside the terms.
//!
//! What is promised, by the clauses of `read_env`: an answer is the verdict on the text (`exact`), so the environment is the one that the text
//! spells (`spells`), each refusal is the first of the text and stands where its cause is (`first`, `syntax`, `unsupported`, `limit`), and a
//! text that spells an environment within the limits is read as that environment unless memory runs out (`complete`). A text spells one
//! environment at most (`meaning_is_unique`). `read_call` reads the environment that a text begins with, up to the bracket that closes the
//! first one, with the same promises of that front, and gives the offset behind it (`behind`, `within`). Where the text goes on as the job `cert` writes
//! it, that bracket is found without counting (`ahead`); no clause says where. Terms without subterms are shared (`leaves`); no clause says what is.
//!
//! Below stand `dump_grammar` (the format and its refusals), `dump_parser` (the parts of a text as trees), `pc_terms` and `universe_levels`. Above stand the
//! printer and the checker.
#![tactic(auto)]

mod ahead;
mod blocks;
pub mod declaration;
mod declared;
pub mod environment;
mod front;
mod leaves;
mod lists;
mod making;
pub mod names;
mod numbering;
pub mod reading;
mod recent;
mod term;
mod universe;
mod whole;

pub use dump_grammar::{Foreign, Limit, ReadRefusal};
