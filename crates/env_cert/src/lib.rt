//! Whole environments are verified along a certificate: the certified walk of an environment, as code. `beginning` has what is looked
//! at before the declarations, `constants` a constant, `declarations` the declarations, each over the ones before,
//! and `verify` main, and that all items are used. `refusal` says why an environment isn't accepted with a certificate.
//!
//! What is promised, by the clauses of `verify_env`: its answer is the one of the certified walk of `cert_rules` (`walks`): acceptance; the
//! item at which the walk is refused, with the units that are left; that no unit is left exactly where the walk finds it; that a limit was
//! passed only where it passes one. The meter is left at the nesting of the call's entry, with no unit won and no use forgotten (`after`).
//! And what is accepted is well formed by the declarative rules, main included, whatever the certificate (`well_formed`).
//!
//! Below stand `block_cert` (blocks along a certificate), `type_cert` (terms), `cert_rules` (the walk), `env_check` (levels, constraints,
//! names), `inductive_check`, `pc_rules`, `rule_laws` and `dump_reader` (environments as they are read); above, the crate that makes certificates, and the driver.
#![tactic(auto)]

mod beginning;
mod constants;
mod declarations;
pub mod refusal;
pub mod verify;
