//! Conversion by closures: terms are compared by weak-head normal forms of which nothing is read.
//!
//! `LazyCompare` implements `Converter`, as `Compare` of `conversion` does over a reducer, and follows the same directed comparison of
//! `pc_rules` (`follows`): answers, units and refusals are the same. What it compares are terms under bindings and values of `reduce_machine`: a
//! weak-head normal form is a head with arguments that nobody has read, and these are compared in turn. Whether two of them are one tree is decided
//! under their bindings (`sameness`, `same_values`). What stands below binders (codomains, bodies, predicates, branches) is read where it isn't seen to
//! be the same, and then compared as a plain term; and a refusal reads the two terms that it keeps.
//! From the first spine inwards, what bindings were reduced to is kept from one reduction to the next in the same context (`Setting::keeping`).
//! A comparison knows of its context only the values of variables: so a longer context has placeholders, and no types of entries are made.
//! Hints on inlining hold down what a rule takes of the stack, of which 2,048 must fit: as built, below four kilobytes (measured and not proved).
//!
//! Below stand `reduce_machine` (values), `reduction` (terms around a scrutinee), `conversion` (sorts, kinds of heads), `rule_laws` and
//! `instances` (laws on counts, families of blocks), `pc_rules` (the definitions, the trait), `calculus_rules`, `pc_terms`, `trees` and
//! `universe_levels`; above, `env_check` and the `driver`, which compare by it, and `type_cert`, which goes along scripts by what
//! is known here of values.
#![tactic(auto)]

mod assumptions;
pub mod comparison;
mod fixpoints;
mod held;
mod lists;
mod matches;
pub mod part;
mod places;
pub mod same_values;
pub mod sameness;
pub mod shapes;
pub mod spine_heads;
mod spines;
pub mod stuck;
mod units;
