//! What a walk goes along: a certificate, and the environment so far.
use cert_rules::certificate::CertItems;
use pc_rules::environment::Env;

/// A certificate's items, the environment in which terms are typed, and how many rules may still stand in one another.
#[derive(Drop)]
pub struct Verifier<'a> {
    pub cert: &'a CertItems,
    pub env: &'a Env,
    pub room: u32,
}
