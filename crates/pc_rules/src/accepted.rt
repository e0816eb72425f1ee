//! Accepted environments.
use crate::environment::Env;
use pc_terms::term::Term;

/// An environment that was accepted, with its main term and a type of that.
#[derive(Drop)]
pub struct Accepted {
    pub env: Env,
    pub main: Term,
    pub main_type: Term,
}
