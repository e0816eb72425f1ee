//! Entries of a context.
use pc_terms::term::Term;

/// An entry of a context: a variable of a type, or one that stands for a value of a type.
#[derive(Drop)]
pub enum Entry {
    Assumed(Term),
    Defined { value: Term, ty: Term },
}
