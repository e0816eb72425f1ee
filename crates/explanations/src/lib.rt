//! What explains a refusal of the check, as text.
//!
//! `explain_broken`, `explain_spent` and `explain_deep` give exactly the texts of `specs/Explanation` (`text`): the place, the rule in words and what its
//! refusal keeps, each with its label; the place where the units are spent, with how many of them and how many uses of each rule were taken before; the place
//! where a limit is passed. Terms and sorts are written as in the dump, by `dump_printer`, and a term with over 200 nodes is cut, which its line says. Want of
//! memory is the only refusal.
//!
//! Below stand `kio` (sinks in memory), `dump_reader` (environments), `dump_printer` and `pc_rules` (refusals, places and accounts). Above stands `driver`, whose job
//! `explain` writes these texts.
#![tactic(auto, using(crate::proofs::Adding::adds_both))]

mod explanation;
mod lines;
mod text;

pub use explanation::{explain_broken, explain_deep, explain_spent};
