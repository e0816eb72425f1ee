//! What every emitted module has: the parts of which emission makes the module of a lifted program, and the facts of its runs that don't depend on the code of blocks.
//!
//! `instructions` pushes the instructions that the code of blocks is made of (clause `pushed`), `bodies` makes the functions of the run time (`is`), `parts` the types,
//! exports, globals and the table's segment (`is`), `functions` and `numbers` find the functions (`is`), and `locals` counts the locals of a block and refuses exactly
//! where these are too many (`ok`, `locals`). `specs/EmittedCode.antt` and `EmittedModule` define these parts, `EmittedLocals` how many locals a block has,
//! `Emission` what a program must be (`Emits`), which each program is that lifting gives (`lifted_programs_can_be_emitted`, clause `emits`), `CallDepth` how deep the calls of its
//! evaluation stand in one another (`call_depths_are_one`), `EmitLaws` when a run has spent its memory, and `CallLaws` what a host puts into memory before a run with arguments. `docs/EMISSION.md` tells it as a whole.
//!
//! `proofs/` has what the laws of emission cite: words of values in memory (`Values`, `Holds`), the rules of the machine at the stores of such a module (`Rules`), room
//! for a block (`Alloc`), that a run's status is 1 only after a refused grow (`Honest`, `Status`), and sizes of the parts (`Lengths`, `Sized`).
//!
//! Below stand `closure_lift` (lifted programs and their evaluation) and `wasm_core` (modules, validity, runs); above stands `known_calls`, which makes the compiler's
//! modules of these parts.
#![tactic(auto)]

pub mod bodies;
mod fault;
pub mod functions;
pub mod instructions;
mod laws;
pub mod locals;
pub mod numbers;
pub mod parts;

pub use fault::EmitFault;
pub use laws::{call_depths_are_one, lifted_programs_can_be_emitted};
