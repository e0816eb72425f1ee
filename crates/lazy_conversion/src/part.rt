//! Parts of terms that stand under bindings.
use pc_terms::term::Term;
use reduce_machine::bindings::Bindings;

/// A part of a term that stands under bindings, below `under` variables of its own: its variables 0 to `under` - 1 are these, and `env` binds those behind them.
#[derive(Clone, Copy, Drop)]
pub struct Part<'a> {
    pub term: &'a Term,
    pub under: u64,
    pub env: &'a Bindings,
}
