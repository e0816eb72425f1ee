//! Conversion: terms are compared by their weak-head normal forms, layer by layer.
//!
//! `Compare` implements `Converter` over every `Reducer`. It follows the directed comparison of `pc_rules` (`follows`): a unit at the start
//! of each comparison, then one more rule that stands; equal trees are done; else both sides are reduced, the left first, and taken apart:
//! sorts by entailment, products and lambdas by their parts, and spines of the same kind of head and of as many arguments, among them
//! matches and fixpoints; all else is refused with the two weak-head normal forms. New entries of the context come from the left side.
//! What it finds to be below or equal is so by cumulativity or conversion (`below`, `equal`).
//!
//! Below stand `pc_rules` (the definitions, the traits, environments and contexts), `instances` (entries formed from declarations),
//! `rule_laws` (what the directed rules say by the declarative ones), `pc_terms` and `universe_levels`; above, `lazy_conversion`, the
//! crates that make certificates and go along them, and the rows.
#![tactic(auto)]

pub mod comparison;
pub mod definitions;
mod fixpoints;
mod matches;
pub mod mode;
pub mod sorts;
pub mod spine_heads;
pub mod spines;
