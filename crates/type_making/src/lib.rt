//! Certificates are made: the directed inference, which also writes the items of a certificate. `typing` has the start of an inference and the
//! rule of a term, `conversions` the sort of a term and a term against a type, `binders` products, lambdas and lets, `applications` rule 6,
//! `matches` with `telescopes`, `scrutinees` and `branches` rule 10, and `fixpoints` rule 11; these call one another, and only the number of
//! rules that may still stand falls (`script_making`: `maker`), so they are one cycle of calls. `uses` has what a rule notes and writes of itself.
//!
//! What is promised: each call makes what a directed rule that writes of `cert_rules` makes (`makes`, by `specs/Makes` of `script_making`): its
//! results and refusals, the units that are left and the uses of rules are those of the directed rules, and what it writes is the items of
//! that run, behind what was written before. What is inferred is a type of the term (`inferred`). What asks no typing rule is asked of the
//! calls of `type_infer`.
//!
//! Below stand `script_making` (what is spent and written, reductions and scripts), `type_infer` (what the directed rules do step by step),
//! `pc_rules` (environments, contexts, meters), `instances` and `cert_rules` (items, the directed rules that write); above, the crates that
//! check blocks and environments while they write.
#![tactic(auto)]

mod applications;
mod binders;
mod branches;
pub mod conversions;
mod fixpoints;
mod matches;
mod scrutinees;
pub mod telescopes;
pub mod typing;
mod uses;
