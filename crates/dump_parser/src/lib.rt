//! The reader of the text of a dump: one pass over its tokens, from left to right, into trees whose names are slices of the text. A `Parser` gives the parts
//! in turn: the head, the declarations one by one, and main, so that its caller needs to keep no tree but that of one part.
//!
//! A function stands for each bracketed form, so that calls nest with brackets, a few for each of at most 1,000; a run of applications is one node, however
//! many arguments it has. Names of binders are dropped. The format is the one of `dump_grammar`, whose table the code follows. A variable, constant,
//! family or constructor that comes again is mostly the node that was made before, shared.
//!
//! What is promised: `start` of `Parser::new` and `reads` of `head`, `declaration` and `main` say what the verdict of the grammar on the text is at each stage
//! (`specs/Stages`): in the end the environment of the parts that were given, or the text's first refusal with its offset; want of memory alone is
//! free. `within` of `Tree::node` says that no term has a depth over 2,048, and `indexed` that the index of a fixpoint is below the number of its definitions.
//! Names are `&str`, since each byte of an atom is ASCII (`proofs/Atoms`).
//!
//! Contracts see a term as the term that the grammar means (`specs/Tree`). What a function of the reader promises (`specs/Reading`) is said for all
//! that is to come: the verdict on the tokens before the call is the verdict on the tokens after it, with what was read among the values.
//!
//! Below stand `sexp_reader` (tokens) and `dump_grammar` (the grammar, its verdict and the refusals). Above stands the reader that numbers names and
//! levels and makes terms.
#![tactic(auto)]

mod block;
mod constant;
mod declaration;
pub mod environment;
mod head;
mod leaf;
mod leaves;
mod level;
mod list;
mod measure;
mod number;
mod parser;
mod sort;
mod telescope;
mod term;
mod token;
pub mod tree;

pub use parser::Parser;
