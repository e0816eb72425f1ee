//! Weak-head reduction by substitution (PCUIC: Sozeau et al., "Coq Coq Correct!", POPL 2020, section 2.2: weak-head reduction), with units.
//!
//! A term is taken apart into a focus and the frames around it (`specs/Frames`: arguments, matches that wait for their scrutinee, and
//! fixpoints that wait for their recursive argument), which lie in a vector: this layer has no recursion. From the focus the machine goes
//! inwards to a variable, a constant or another head (`machine`, `heads`); where that has no step, it goes outwards frame by frame
//! (`meeting`), till a step is found (`redexes`) or the whole term is put together again. The arguments of a constructor and of a fixpoint
//! are taken off into a small vector (`spine`). A unit is taken for each step, before its result is made (`substitution`).
//!
//! What is promised: `Subst` implements `Reducer` of `pc_rules` for all steps: beta, zeta, constants, defined variables, matches and
//! fixpoints. It follows the directed rules exactly, units, `Spent` and `TooDeep` included (`follows`), and its result is joined to the
//! term by weak-head steps (`reached`). `stepping` has a single step, which gives the whole term after it and takes no unit (`next`, `stops`).
//!
//! Below stand `pc_terms` (terms, lifting, substitution), `pc_rules` (environments, contexts, meters, the rules) and `instances` (fixpoints
//! unfolded), above `reduce_machine`, the verifier of certificates and the rows.
#![tactic(auto)]

mod frames;
mod heads;
mod machine;
mod meeting;
pub mod stepping;
pub mod substitution;
