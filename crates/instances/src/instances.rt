//! Types and entries that the rules form from declarations (PCUIC, Sozeau et al., POPL 2020, section 2), as functions over a block's data.
//!
//! Each call gives the term or the entries of its definition (`ok`), and answers `TooDeep` only where a term that the asked one is made of
//! is beyond the limits of terms in memory, as the directed rules count them (`too_deep`). Else it answers `Memory` alone.

mod applied;
pub mod branches;
pub mod constructors;
mod counted;
mod entries;
pub mod families;
pub mod fixpoints;
pub mod predicates;
mod products;
pub mod replacing;
