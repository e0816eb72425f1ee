//! The graph of universe constraints: whether some valuation meets them, and what holds under each.
//!
//! A graph is built from the number of declared levels and a list of constraints, each of which says that a level is less than another, at
//! most it, or equal to it. A valuation gives `Set` the value 0 and each declared level a value of at least 1 (`specs/Consistency.antt` of
//! the crate `universe_levels`).
//!
//! What is promised, by clause: `Graph::build` gives a graph only where some valuation meets all constraints (`consistent`), and a cycle
//! only where none does; the constraints that it lists, in rising order, alone have none (`cycle`). `Graph::entails` is true exactly where
//! the one universe is at most the other under every valuation that meets the constraints (`entailed`). Any other refusal is want of
//! memory; `entails`, `levels` and `constraints` take none.
//!
//! How: the table of spans (`specs/Spans.antt`) has, for each two levels, one more than the largest number of strict steps in a chain of
//! constraints from the one up to the other. `steps` fills it with the constraints' own steps, `closing` adds all chains, and `cover` reads
//! it; for large universes `hints` finds what is tried first, by the constraints in the order that `order` makes. Where there is a strict
//! chain from a level to itself, `clash` walks along a cycle and checks on the way that its constraints clash.
//!
//! Below stands `universe_levels`; above stand the rules of typing.
#![tactic(auto)]

mod clash;
mod closing;
mod cover;
pub mod graph;
mod hints;
pub mod numbers;
mod order;
mod row;
mod steps;
#[cfg(test)]
mod tests;
