//! Types and entries that the rules form from declarations, and contexts under the binders of telescopes, matches and fixpoints.
//!
//! `instantiations` has the calls over an environment: the types of families and constructors, the entries of predicates and branches, the
//! types of branches, and the values of predicates and fixpoints. `instances` has the same over the data of a block that the caller has found.
//! `contexts::extended` is a context with the entries of a telescope (`longer`, `only_memory`), `contexts::definition_entries` the entries of
//! the definitions of a fixpoint, and `kept::kept_family` the family that a match names, where its whole block is kept (`kept`).
//!
//! What is promised: each call gives the term or the entries of its definition in `pc_rules` (`ok`), and answers `TooDeep` only where a
//! term that the asked one is made of is beyond the limits of terms in memory, as the directed rules count them (`too_deep`). Else it
//! answers `Memory`: no unit is spent (`unspent`). The type of a family is there while its block is known by its heads alone; constructors
//! and matches ask for a whole block (`known`, `kept`).
//!
//! Below stand `pc_terms` (terms, lifting, substitution) and `pc_rules` (declarations, environments and the definitions), above the crates
//! that reduce, compare, infer, make and follow certificates, and test and erase terms.
#![tactic(auto)]

pub mod contexts;
pub mod instances;
pub mod instantiations;
pub mod kept;
