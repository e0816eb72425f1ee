//! Inference of types by the directed rules (PCUIC, Sozeau et al., "Coq Coq Correct!", POPL 2020, typing).
//!
//! `Inference` implements `Typer` over every `Reducer`, `Converter` and `Guarder`. It follows the directed rules of `pc_rules` (`follows`):
//! each inference takes a unit, counts as one more rule that stands, and notes the use of its term's rule, of rules 1 to 11; a conversion,
//! rule 12, takes a unit and is noted where a type is used in the place of another. Results, refusals with what they keep, the units that
//! are left and the uses of rules are those of the directed rules. What it infers or lets pass is so by the rules of typing (`typed`).
//!
//! The rules call one another, and only the number of rules that may still stand falls, so they are one cycle of calls: its start is in
//! `inference`, sorts and checks against a type in `conversions`, products, lambdas and lets in `binders`, applications in `applications` with `pending`,
//! matches in `matches` with `telescopes`, `scrutinees` and `branches`, and fixpoints in `fixpoints`. What calls no rule stands apart:
//! variables and sorts in `leaves`, in `universes` what is asked of sorts of which no term is made (that one has a sort, that one is below another), constants,
//! families and constructors in `declared`, with the types that were made before in `made_types`, and in `lookup`, `counts` and `elimination` what a match asks
//! of its block.
//!
//! That comparison and guard are asked only for what their conditions allow comes from the laws of `rule_laws`: what has been inferred is
//! a type, and it and the term are well counted (`inferred`, `counted`).
//!
//! It infers at a site, too (`SiteTyper`): there it asks a table first for what was inferred before (`known_types`), and puts there what it infers.
//! Without a site nothing is asked and nothing is kept.
//!
//! Below stand `pc_rules` (the rules, the interfaces, environments and contexts), `known_types` (the table), `rule_laws` (the laws of the directed rules), `instances`
//! (types and entries formed from declarations), `pc_terms` and `universe_levels`, above the crates that check blocks and environments.
#![tactic(auto)]

mod applications;
mod binders;
mod branches;
mod conversions;
pub mod counts;
pub mod declared;
pub mod elimination;
pub mod fixpoints;
pub mod inference;
pub mod leaves;
pub mod lookup;
pub mod made_types;
mod matches;
pub mod pending;
pub mod scrutinees;
mod telescopes;
mod universes;
