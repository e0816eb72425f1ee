//! Whole environments: whether one that is read is well formed (PCUIC: Sozeau et al., "Coq Coq Correct!", POPL 2020, section 2.3).
//!
//! `check_env` does the directed rules in their order: the levels as they are listed, the constraints on them, the graph of these, the
//! declarations, each over the ones before, and main.
//!
//! What is promised, by its clauses: the answer is the one of the directed rules (`follows`): acceptance, with the environment and a type of
//! main, or the first broken rule with its place and what it keeps, with the units that are left and the uses of rules; that no unit is
//! left exactly where the rules find it; that a limit was passed only where they pass one; and at which place, for these two too
//! (`placed`). The meter is left at the nesting of the call's entry, with no unit won and no use forgotten (`after`). What is accepted is well formed and keeps exactly the declarations that were
//! read, in their order, with the sorts of constructor arguments (`well_formed`), and main as it was read (`main`). What comes before the declarations
//! stands alone in `beginning`: the environment of the levels and constraints (`bare`), which are sound (`sound`), or the first of these rules that is
//! broken (`refused`).
//!
//! Below stand `dump_reader` (environments as they are read), `pc_rules` (the rules, environments, meters), `rule_laws` (the directed rules
//! are sound), `universe_graph`, and the crates that compare (`lazy_conversion`, by closures of its own), infer, judge fixpoints and check
//! blocks; inference and the guard reduce by the caller's reducer. Above stand the crates that verify and make certificates of environments, and the driver.
#![tactic(auto)]

pub mod beginning;
pub mod check;
pub mod constraints;
pub mod declarations;
pub mod levels;
pub mod refusal;
