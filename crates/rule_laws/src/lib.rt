//! The directed rules are sound for the declarative ones: what a checker that follows them finds is so by PCUIC's rules in this project's
//! profile (Sozeau et al., "Coq Coq Correct!", POPL 2020).
//!
//! Each function has no result but its contract, which is a statement of `specs/`. What is promised:
//! - `reduction`: where the directed rules find no weak-head step there is none (`normal`), so what they end with is the weak-head normal
//!   form (`whnf`), over environments that declare each name once (`accepted`, `heads`);
//! - `comparison`: equal and below (`sound`), and weak-head steps keep terms well counted (`counts`);
//! - `guard`: a fixpoint that passes is guarded (`sound`);
//! - `inference`: types, sorts and checks against a type (`infer`, `sort_of`, `check`);
//! - `declarations`: blocks, declarations and whole environments (`blocks`, `declarations`, `environments`);
//! - `erasability`: evidence that a term is erasable (`sound`);
//! - `counts`: what has a type is well counted (`typed`), and so are its type (`types`) and an accepted environment (`accepted`); and its fixpoints have
//!   enough lambdas (`typed` of `typed_terms_have_lambdas`).
//!
//! The statements are about the directed functions alone, so they hold of every implementation that gives what those give. Their
//! conditions are those of the checker's interfaces (`WellCounted` of `pc_rules`): comparison and the guard ask for well-counted terms;
//! inference finds out by itself whether a term is, and asks only that it has the form of terms in memory (`Formed` of `pc_terms`). Of an
//! environment the laws ask only that its declarations are well counted, which is a part of a well-counted environment.
//!
//! Below stands `pc_rules` with both kinds of rules, above the crates that compare, infer, check, erase and judge whole environments.
#![tactic(auto)]

pub mod comparison;
pub mod counts;
pub mod declarations;
pub mod erasability;
pub mod guard;
pub mod inference;
pub mod reduction;
