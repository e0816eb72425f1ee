//! Erasure of an accepted environment to a program of lambda-box (PCUIC: Sozeau et al., "Coq Coq Correct!", POPL 2020, section 4: erasure).
//!
//! `program::erase` gives exactly what directed erasure gives (`follows`): the program whole, the first declared constant without a body that
//! is reached, or what halts it, with what is left of units and uses of rules; and a halt has the place of what is being erased (`halted`).
//! A program is erased from its environment by the erasure relation (`erased`, `sources`), has the form of box programs (`form`), has no more
//! nodes than main and the bodies together (`fewer_nodes`) and no term that is deeper than its source (`no_deeper`), and keeps the value of an
//! evaluation of first-order type (`value`); a named axiom has no body (`axiom`). `refusal::EraseRefusal` says why there is no program.
//!
//! The code is in layers: terms of box that are made within the limits (`making`), erasure of a term (`terms`), the set of the names that
//! erased terms name (`names`), the walk over declarations (`constants`), the counts of families (`families`), and the whole (`program`).
//!
//! In `erase_at_sites` the tests of a program share a table of types that were inferred (`known_types`): each subterm is tested for itself, and its test takes all its
//! units, but what the tests of the terms around it inferred isn't inferred again while the table has it.
//!
//! Below stand `erasable` (the test), `known_types` (the table), `instances` (contexts under binders), `box_terms` (terms and programs after erasure),
//! and the definitions and laws of `erase_rules`, `erase_laws` and `lambda_box`; above, the driver and the rows.
#![tactic(auto)]

mod constants;
mod families;
mod making;
mod names;
pub mod program;
pub mod refusal;
mod terms;
