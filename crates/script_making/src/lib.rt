//! Certificates are made: the directed comparison, which also writes the items of a script. `draft` has what is spent and written,
//! `maker` what it goes along, `reductions` the weak-head normal form of a term with an item for its steps, `comparison` the start of a comparison
//! and what two terms are, `spines` heads and arguments, `matches` and `fixpoints` the parts of these.
//!
//! What is promised: each call makes what a directed rule that writes of `cert_rules` makes (`makes`, by `specs/Makes`). Its results and
//! refusals, the units that are left and the uses of rules are those of the directed rules, and what it writes is the items of that run, behind
//! what was written before. That the certified walk accepts these is a law of `cert_rules` (`accepted`).
//!
//! Below stand `conversion` (modes, sorts, heads of one kind), `pc_rules` (the directed rules, environments, contexts, meters), `instances`
//! (entries formed from declarations) and `cert_rules` (items, the directed rules that write); above, the crates that infer types, check blocks
//! and check environments while they write.
#![tactic(auto)]

pub mod comparison;
pub mod draft;
mod fixpoints;
pub mod maker;
mod matches;
pub mod reductions;
mod spines;
