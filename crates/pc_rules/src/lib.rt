//! The directed rules: what a checker by the rules of the calculus (`calculus_rules`) does, as definitions; and the types and traits of the crates that reduce,
//! compare, guard and infer by them.
//!
//! The directed rules say what a checker does, step by step: which unit it takes, which refusal comes first and what it keeps, and which
//! uses of rules are counted. They are total functions: `DirectedRun` (how a run ends), `DirectedWeakHead`, `DirectedComparison`,
//! `DirectedGuard`, `DirectedTyping`, `DirectedPositivity`, `DirectedPlaces` (what follows each other at places of an environment),
//! `DirectedDeclarations`,
//! `DirectedFirstOrder`, `DirectedEvaluation` and `DirectedErasable`. `Entailment` is their test of universes.
//!
//! The traits `Reducer`, `Converter`, `Guarder` and `Typer` say of each implementation that it follows the directed rules (`follows`, by
//! `Follows`): its results and refusals are theirs with the units that are left and the uses of rules; it stops for want of units exactly
//! where they do, unless they pass a limit first; and it may always answer want of memory. Whatever it answers, no more units are gone than
//! the whole run of the rules takes. Besides, its results are right by the
//! declarative definitions (`reached`, `below`, `equal`, `guarded`, `typed`). Their conditions are in `WellCounted`
//! (declared levels, the counts of matches, and the form that each term in memory has) and `FixConditions`.
//!
//! The types: `Env` finds what is kept by a name (`kept`), keeps declarations (`kept`, `as_before`) and heads of blocks, and decides
//! entailment (`test`, `entailed`); `Ctx` is extended without copying (`longer`); `Meter` takes units, counts uses of rules and bounds the
//! rules that stand in one another (`account`, `nest`); `Evidence` says why a term is erasable; `naming` tests whether terms name a `Target` (`is`).
//!
//! What is promised besides (`directed_laws`): directed weak-head steps are steps (`steps`, `weak_steps`, `reached`); the directed rules never go back on units,
//! and more units change no result (`weak_head`, `comparison`, `guard`, `inference`, `blocks`, `evaluation`, `search`); evaluation with units is evaluation
//! (`sound`, `complete`); what the first-order search finds is a first-order set (`found`, `without`); and there is no cycle exactly where the constraints have a
//! valuation (`none`).
//!
//! Below stand `calculus_rules` (the declarative rules), `trees` and `pc_terms` (terms, lifting, substitution), `universe_levels` (sorts, valuations) and
//! `universe_graph` (constraints and entailment), above the crates that reduce, compare, infer, check, evaluate and erase, and those that prove laws of the
//! directed rules and of erasure.
#![tactic(auto)]

pub mod accepted;
pub mod broken;
pub mod context;
pub mod converter;
pub mod declarations;
pub mod directed_laws;
pub mod environment;
pub mod guarder;
pub mod meter;
pub mod naming;
mod number_map;
pub mod reducer;
pub mod shared_list;
pub mod stop;
pub mod typer;
