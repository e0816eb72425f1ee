//! The passes over saturated programs after erasure that make them smaller: a constant with one use is put in its place, and parameters that are always box are dropped.
//!
//! `inline` and `drop_dead_params` answer exactly the programs of `specs/Inline.antt` and `specs/DropParams.antt` (`is`), which go through the constants from the
//! earliest to the latest, once. The program has the form of programs (`form`), stays saturated and ordinary (`saturated`, `ordinary`), gives the same data with no
//! more counts of evaluation (`data_kept`), and is neither larger nor deeper (`nodes_kept`, `no_deeper`). `Memory` is the only refusal (`only_memory`). The laws of
//! both functions stand apart in `laws`, with those of all four passes together.
//! `inline` notes the uses of each constant in one walk (`specs/Sights.antt`), and walks each body once more to put in those before it (`specs/Filled.antt`).
//! `drop_dead_params` notes which parameters aren't used and at which places every use has box (`specs/DeadPlaces.antt`), and walks each body once more to drop the
//! arguments there, and the lambdas (`specs/Pruned.antt`). Subterms in which nothing changes stay shared, and no walk recurses deeper than its term.
//!
//! Below stand `box_terms` (the terms), `lambda_box` (programs and their evaluations) and `box_passes`, whose programs they are made for; above, `compile` calls both, and
//! `back_end` has their laws with those of the other passes.
#![tactic(auto)]

mod counting;
mod dropping;
mod filling;
mod flags;
mod inlining;
pub mod laws;
mod noting;
mod pruning;
mod unused;
mod unwrapping;

pub use dropping::drop_dead_params;
pub use inlining::inline;
pub use lambda_box::PassFault;
