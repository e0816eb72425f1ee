//! Certificates are made: whole environments, as the directed rules judge them, while the items of a certificate are written. `constants` has a
//! constant, `declarations` the declarations, each over the ones before, and `make` main and the whole. `refusal` says why there is no certificate.
//!
//! What is promised, by the clauses of `make_cert`: its answer is the one of the directed rules that write of `cert_rules` (`makes`): the certificate is
//! what they write; the first broken rule with its place and what it keeps, with the units that are left and the uses of rules; that no unit is left
//! exactly where the rules find it; that a limit was passed only where they pass one. But for the certificate it is the answer of the directed rules of
//! the check (`follows`). The meter is left at the nesting of the call's entry, with no unit won and no use forgotten (`after`). An environment that
//! has a certificate is well formed by the declarative rules, main included (`well_formed`). And the certificate is accepted by `verify_env` of
//! `env_cert`, with at least the units that were taken, unless that passes a limit or there is no memory (`accepted`).
//!
//! Below stand `block_making` (blocks, while writing), `type_making` (terms), `script_making` (what is spent and written), `cert_rules` (the directed
//! rules that write, and the law that what they write is accepted), `env_check` (levels, constraints, names), `env_cert` (which verifies),
//! `inductive_check`, `type_infer`, `pc_rules`, `rule_laws` and `dump_reader` (environments as they are read).
#![tactic(auto)]

mod constants;
mod declarations;
pub mod make;
pub mod refusal;
