//! The guard of fixpoints: each recursive call is on a smaller argument. The guard condition is this project's own profile, in the place
//! of the oracle that PCUIC leaves open (Sozeau et al., "Coq Coq Correct!", POPL 2020, section 2).
//!
//! `Guard` implements `Guarder` over every `Reducer`. It follows the directed guard of `pc_rules` (`follows`): it walks the body of each
//! definition, the domains of its lambdas first; a call of the fixpoint takes a unit, and then its recursive argument is found smaller by
//! its weak-head normal form, or is refused; in a match on the argument or on a smaller term the variables of branches may be smaller.
//! A fixpoint that it lets pass is guarded by the definition of the condition (`guarded`).
//!
//! Through nested families: the recursive block of a definition is found first; a match in it may have smaller variables of other families' types,
//! and a match of another family smaller variables of a parameter's type; and a fixpoint on a smaller argument has a smaller variable itself.
//!
//! How it goes: `scope` keeps the variables in scope with their marks (`mark`), `families` and `branches` say which variables of a branch
//! are smaller, `tasks` and `finding` find out what a term is, `walking` walks over a body, and `guard` over the definitions.
//!
//! Below stand `pc_rules` (the definitions, the traits, environments and contexts), `rule_laws` (the directed guard is sound) and
//! `pc_terms`, above `env_check`, the driver and the rows.
#![tactic(auto)]

mod args;
mod branches;
mod families;
mod finding;
pub mod guard;
mod mark;
mod scope;
mod tasks;
mod walking;
