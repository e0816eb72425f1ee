//! Trees with variables, for every language: a language is a type of labels, with the places of each label.
//!
//! The crate has definitions (`specs/`) and lemmas (`proofs/`) alone, and no code. `specs/Substitution.antt` defines lifting and
//! substitution by recursion on the tree, `specs/Parallel.antt` the calculus of substitutions for all variables at once, in which laws
//! are proved, and `proofs/Cutoffs.antt` says that the two are one. Variables are de Bruijn indices: the innermost binder's is 0.
//!
//! It stands on nothing. The labels of the source language stand in `pc_terms`, its laws in `term_laws`.
#![tactic(auto)]
