//! The rules of the calculus: PCUIC (Sozeau et al., "Coq Coq Correct!", POPL 2020) in this project's profile, as definitions. Who reads what is promised of an accepted environment reads these, and
//! no code and no order of rules is in them.
//!
//! In the order in which they stand on each other: `specs/Environment.antt` (what is kept), `Lookups`, `Context`, `Instances` (types and entries formed from declarations), `Step` (reduction),
//! `Conversion` (equality and cumulativity), `Elimination`, `Naming` (which terms name a block or a parameter of one), `Guardedness`, `Typing` (rules 1 to 12, guarded and bare), `Positivity`, `Accepted`
//! (well-formed environments), `WeakHead`, `Evaluation`, `Erasable`, `FirstOrder` (first-order types and data) and `Lawful`. `Same` (whether two terms are one tree) and `PropSorts` (whether a sort is Prop) are tests, and `Laws` is what is promised of all these.
//!
//! The types that they speak of are those of the code: `declaration` has constructors, families, blocks and what is kept, `entry` the entries of a context, `target` what positivity is asked for, `evidence`
//! why a term is erasable.
//!
//! What is promised of the definitions (`laws`): equality is a congruence and an equivalence, below a preorder (`reflexive`, `symmetric`, `transitive`, `steps`, `equality`, `prop` and one clause for each
//! former); evaluation is deterministic, its count of nodes too (`determined`); a term has one weak-head normal form at most (`unique`); what has a type has it as a bare type (`bare`).
//!
//! Below stand `trees` and `pc_terms` (terms, lifting, substitution) and `universe_levels` (sorts, valuations). Above stand `pc_rules` with the directed rules, and the laws of the calculus, `erase_laws`, `equality_laws` and `type_laws`.
#![tactic(auto)]

pub mod declaration;
pub mod entry;
pub mod evidence;
pub mod laws;
pub mod target;
