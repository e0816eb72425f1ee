//! What a certificate is made with.
use pc_rules::environment::Env;

/// What reduces terms, the environment in which they are compared and typed, and how many rules may still stand in one another.
#[derive(Drop)]
pub struct Maker<'a, R> {
    pub reducer: &'a R,
    pub env: &'a Env,
    pub room: u32,
}
