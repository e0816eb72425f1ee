//! Blocks of inductive families are verified along a certificate: the certified walk of a block, as code. `heads` has what is looked at
//! before the constructors (parameters, then for each family the names of its constructors, its sort and its indices), over the
//! environment; `constructors` has arguments, result terms and their families, over the environment in which the families are known by
//! their types alone (`arguments` has their sorts); `positivity` has the one test of the whole block that follows the last constructor, and
//! `sorts` the sort of a type.
//!
//! What is promised, by the clauses of `walk_block`: it goes along the certified walk of `cert_rules` (`retraces`): its block and its
//! refusals are those of the walk, at its item and with the units that are left, it stops for want of units exactly where the walk does,
//! unless that passes a limit first, and it may always answer want of memory; and a block that it gives fits by the rules of well-formed
//! environments (`fits`), whatever the certificate.
//!
//! Below stand `type_cert` (the walk of typing), `inductive_check` (what the directed rules of blocks do step by step, positivity),
//! `type_infer`, `pc_rules`, `rule_laws`, `cert_rules` and `dump_reader` (declarations as they are read), above the crate that
//! verifies whole environments.
#![tactic(auto)]

mod arguments;
pub mod block;
mod constructors;
mod heads;
mod positivity;
mod sorts;
