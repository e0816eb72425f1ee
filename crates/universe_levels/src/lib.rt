//! Universe levels, universes and sorts: the numbers behind `Type`.
//!
//! A level is a number that stands for an unknown natural number: 0 is `Set`, and a declared level is 1 or more. A valuation (`specs/Valuation.antt`) gives
//! `Set` the value 0 and each declared level a value of at least 1; a level expression `l + n` has the level's value plus n, and a
//! universe the greatest value of its level expressions. A sort is `Prop`, or the types of a universe.
//!
//! What is promised, by clause: the exact value of each call (`value`, by the definitions of `specs/Maximum.antt` and
//! `specs/Sorts.antt`) and its meaning under every valuation (`meaning`): `Universe::of` is the maximum of what it is given,
//! `Universe::join` the maximum of two, `Sort::super_of` one more than its sort, and `Sort::product` the sort of a product, which stays
//! in `Prop` where the codomain is there. `empty` and `too_big` say exactly when these refusals come; any other is want of memory.
//!
//! Nothing of this repository stands below. Above: terms, which hold sorts, and the graph of constraints, which judges universes.
#![tactic(auto)]

pub mod constraint;
pub mod level;
mod maximum;
pub mod sort;
#[cfg(test)]
mod tests;
pub mod universe;
