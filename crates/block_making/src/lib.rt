//! Certificates are made: blocks of inductive families, as the directed rules judge them, while the items of a certificate are written. `heads` has
//! what is looked at before the constructors (parameters, then for each family the names of its constructors, its sort and its indices), over the
//! environment; `constructors` has arguments, result terms and their families, over the environment in which the families are known by their types
//! alone (`arguments` has their sorts), and `sorts` the sort of a type.
//!
//! What is promised, by the clauses of `make_block`: it makes what the directed rule of a block that writes of `cert_rules` makes (`makes`, by
//! `specs/Makes` of `script_making`): its block and its refusals, the units that are left and the uses of rules are those of the directed rules, and
//! what it writes is the items of that run, behind what was written before.
//!
//! Below stand `type_making` (inference that writes), `script_making` (what is spent and written), `inductive_check` (what the directed rules of blocks
//! do step by step), `type_infer`, `pc_rules`, `rule_laws`, `cert_rules` and `dump_reader` (declarations as they are read), above the crate that makes
//! the certificate of a whole environment.
#![tactic(auto)]

mod arguments;
pub mod block;
mod constructors;
mod heads;
mod sorts;
