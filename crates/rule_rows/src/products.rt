//! Products that stand in one another.
ghost use Rattle.std.specs.Prelude.{IfOk};
ghost use Rattle.calculus_rules.specs.Environment.{Env};
ghost use Rattle.pc_rules.specs.WellCounted.{IsCounted};

use pc_terms::term::{MakeFault, Node, Term};
use std::alloc::Global;
use universe_levels::sort::Sort;

/// So many products over `Prop`, one in another, that end in a term.
pub fn products(alloc: Global, count: u64, end: Term) -> Result<Term, MakeFault>
    ensures counted { IfOk result (λ t. (E : Env) → IsCounted E end → IsCounted E t) }
{
    let mut term = end;
    for _i in 0..count {
        let domain = Term::make(alloc, Node::Sort(Sort::Prop))?;
        term = Term::make(alloc, Node::Prod(domain, term))?;
    }
    Ok(term)
}

/// A product of a term and itself, so many times over. Both sides are one node, so the tree doubles each time.
pub fn doubled(alloc: Global, count: u64, end: Term) -> Result<Term, MakeFault>
    ensures counted { IfOk result (λ t. (E : Env) → IsCounted E end → IsCounted E t) }
{
    let mut term = end;
    for _i in 0..count {
        let domain = term.share()?;
        term = Term::make(alloc, Node::Prod(domain, term))?;
    }
    Ok(term)
}
