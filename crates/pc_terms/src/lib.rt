//! Terms of PCUIC (Sozeau et al., "Coq Coq Correct!", POPL 2020), as shared trees.
//!
//! A `Term` is an `Rc` of a node that keeps its depth and its loose bound; contracts see it as a tree (`specs/Syntax.antt`, over
//! the crate `trees`). Variables are de Bruijn indices: the innermost binder's is 0. A term's depth is at most 2,048 and its
//! variables are numbers of 32 bits, so walks over one term may recurse.
//!
//! What is promised: `make` gives the tree of its node and refuses exactly a depth over 2,048 (`ok`, `within`, `too_deep`, `beyond`);
//! `depth`, `loose` and `same` are those of trees and take no memory; `lift`, `subst`, `subst_list`, `subst_list_at` and `apply` share
//! subterms and give what the plain recursive functions on trees give (`ok`), also as renamings and substitutions for all variables
//! at once (`parallel`), and answer `TooDeep` exactly where that tree is beyond the limits (`within`, `too_deep`); `share` and `spine`
//! answer `Memory` alone (`only_memory`). No clause says what is shared: a walk keeps the copies of shared nodes (`copies`), so its result
//! shares what the term shares. `view` and `depth` say of every term that all its nodes are formed (`formed`): a match's
//! parameters stand under no variable of their own, and a fixpoint names one of its definitions, each with a type, a body under all
//! definitions and a recursive argument. Trees in general need not be so; `specs/Formed.antt` defines it.
//!
//! Below stand `trees` (trees and the laws of substitution) and `universe_levels` (sorts), above `term_laws` and all that handles terms.
#![tactic(auto)]

mod copies;
pub mod leaf;
mod lift;
pub mod lists;
mod measure;
mod same;
mod spine;
mod subst;
mod subst_list;
pub mod term;
