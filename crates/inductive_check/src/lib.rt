//! Blocks of inductive families: whether one that is read may be declared (PCUIC, Sozeau et al., "Coq Coq Correct!", POPL 2020, section
//! 2.3), with strict positivity, also nested.
//!
//! What is promised, by the clauses of `check_block`: it follows the directed rules of a block (`follows`), so it gives the first broken
//! rule, and it leaves the units and the uses of rules that these leave; and a block that it gives fits by the rules of well-formed
//! environments (`fits`). A new block is looked at in two rounds: its heads (`heads`: parameters, then for each family the names of its
//! constructors, its sort and its indices) over the environment, and its constructors (`constructors`: arguments, then result terms) over the
//! environment in which the families are known by their types alone. What stays the same in a round is its `setting`. Positivity goes
//! through the kept blocks in which the families are nested: `positivity` says what a type or an argument comes to, `places` which parameters
//! are named by a block's types, and `waiting` keeps the tests that are still to be made.
//!
//! Below stand `pc_rules` (the rules, environments and contexts), `rule_laws` (the directed rules are sound), `instances` (terms put in for
//! variables) and `dump_reader` (declarations as they are read), above the crate that judges whole environments.
#![tactic(auto)]

pub mod arguments;
pub mod block;
pub mod constructors;
mod heads;
pub mod levels;
pub mod listing;
pub mod names;
mod places;
pub mod positive;
mod positivity;
mod results;
mod setting;
pub mod sharing;
pub mod telescope;
mod types;
mod waiting;
