//! Typing certificates: a list of the choices that a typing derivation makes, and the certified walk, which checks an environment with it and
//! looks for no reduction and no comparison of its own outside the guard.
//!
//! The definitions. `item.rt` has a certificate's items. `specs/Walk` says how a walk ends, `WalkSteps` has the weak-head steps that a number
//! asks for, `Scripts` what shows that a term is equal to another or below it, `WalkTyping` the rules of typing, and `WalkDeclarations` blocks,
//! constants and whole environments. `Writing`, `MakingTyping` and `MakingDeclarations` are the directed rules that also write items.
//!
//! The only code is that of the list types (`certificate.rt`). What is promised, by functions whose clauses are statements of `specs/WalkLaws` and `specs/MadeLaws`:
//! - `soundness`: a script that is accepted shows equality, or that a term is below another (`sound`); types, sorts and checks of the walk hold by
//!   the rules of typing (`infer`, `sort_of`, `check`); and an environment that the walk accepts is well formed (`environments`);
//! - `making`: but for the items, the rules that write are the directed rules (`directed`); and what they write the walk accepts, with at least
//!   the units that they took, unless too many rules stand in one another (`accepted`).
//!
//! Below stand `calculus_rules`, `pc_rules` (the directed rules) and `rule_laws` (their soundness), above the crates that verify certificates, and
//! those that read and print their text.
#![tactic(auto)]

pub mod certificate;
pub mod item;
pub mod making;
pub mod packed;
pub mod soundness;
