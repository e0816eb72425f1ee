//! First-order types and their data, which are this project's own.
//!
//! The types of a first-order set (`shapes`) are those that a value is read by. They are searched from a type (`searching`, `arguments`): a list is worked from its
//! front, and what a type needs is put in behind. A value of the first of them is read as a tree of constructor numbers without parameters, the list of its nodes in
//! preorder (`reading`; the trees are of `data_trees`), and a tree is written as text, by the names of constructors or by their numbers (`texts`). What still waits
//! lies in a vector: this layer has no recursion, and a value that shares parts is not copied. Arguments that are given as text are read as data of their types (`given`).
//!
//! What is promised: `first_order` answers what the directed search of `pc_rules` answers, with its units (`follows`), its types are a first-order set (`set`), and
//! their constructors have the names that the environment keeps (`named`). `data_of` reads exactly the data that the value is, the first node that is none, or that
//! there are more nodes than are looked at (`read`). `signature` takes the type of a function apart (`signatures`): it answers what the directed search for a signature answers
//! (`follows`), which is one (`is`). `text_of` and `tags_of` write exactly the text of the data (`exact`, `text`); data that was read of a value has
//! one (`whole`). `read_args` answers the reading of a text of arguments (`exact`): the data that its tokens spell (`spells`, `complete`), or its first refusal.
//!
//! Below stand `pc_terms`, `pc_rules`, `instances`, `sexp_reader` (tokens), `dump_grammar` (words), `dump_reader` (the table of names) and `data_trees`; above stands `driver`.
#![tactic(auto)]

mod arguments;
pub mod faults;
pub mod given;
pub mod laws;
pub mod reading;
pub mod searching;
pub mod shapes;
pub mod signatures;
pub mod texts;
mod vectors;
