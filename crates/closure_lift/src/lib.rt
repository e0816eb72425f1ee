//! Lifting of programs in A-normal form: functions are numbered, and closures hold captured words.
//!
//! `lift_program` answers exactly the program of the function in `specs/Lift.antt` (`exact` with the constants' names, `is` with their places).
//! Its laws are clauses of the call: data and counts (`data_kept`), names in scope (`form`), counts within the limits (`within`, `functions`,
//! `captures`). `Captured` and `Functions` come exactly where the limits are passed (`refused`). The laws about the function stand apart too
//! (`lift_law`, `form_law`, `captured_law`, `constants_law`).
//!
//! `program` has lifted programs as they are in memory. `free` finds the free variables of each lambda and fixpoint in one walk
//! (`note_block`, clauses `names` and `notes`), and `words` the words among names that are bound outside (`captured_words`, clause `is`).
//! `variables` has the scope at a place of a program: what stands for a variable (`find`, clauses `entry` and `number`), and `frame` what the
//! variables of a lifted block hold. `atoms` writes atoms and the closures that they name. `lift` writes code in one walk from the root down:
//! exactly the block and the functions of `Lift.antt`, and `Captured` only where a lambda or fixpoint has over 1,000 captured words
//! (`lift_block_in`, clauses `block`, `functions` and `refused`). `convert` puts the program together.
//!
//! Below stands `anf_convert`, whose programs are lifted; the emission of modules stands above.
#![tactic(auto)]

mod atoms;
mod convert;
mod fault;
mod frame;
mod free;
mod lift;
pub mod lists;
pub mod program;
mod variables;
mod words;

ghost use Rattle.closure_lift.specs.LiftKeeps.{LiftKeeps, LiftForms};
ghost use Rattle.closure_lift.specs.CapturedLimit.{CapturedExactly};
ghost use Rattle.closure_lift.specs.Renumbers.{Renumbers, RenumbersFunctions};

pub use convert::lift_program;
pub use fault::LiftFault;

/// The lifted program has the data of the program in A-normal form, with as many matches and blocks, no more contractions and no wider
/// block, whatever data main is applied to.
pub fn lift_law()
    ensures keeps { LiftKeeps }
{}

/// The names of the lifted program are in scope, and each closure has the words that its function takes.
pub fn form_law()
    ensures form { LiftForms }
{}

/// The functions of a lifted program take as many words as the lambdas and fixpoints have captured ones.
pub fn captured_law()
    ensures exactly { CapturedExactly }
{}

/// Lifting looks at no constant: where constants have other numbers, so have those of the lifted block and of its functions.
pub fn constants_law()
    ensures same { Renumbers }
    ensures functions { RenumbersFunctions }
{}
