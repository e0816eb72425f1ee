//! Contexts with assumptions of which only the number is known.
ghost use Rattle.std.specs.Prelude.{◌≡◌, suc, length, IfOk, IfErr};
ghost use Rattle.calculus_rules.specs.Context.{values, under};
ghost use Rattle.pc_rules.specs.declared.stop.Stop.TheVariants.{Memory};

use calculus_rules::declaration::{Constructor, Family};
use calculus_rules::entry::Entry;
use pc_rules::context::Ctx;
use pc_rules::stop::Stop;
use pc_terms::term::{Defs, Node, Term};
use std::alloc::Global;
use universe_levels::sort::Sort;

/// A term that stands for a type that nobody looks at. Only `Memory`: a sort is within the limits of terms.
fn placeholder(alloc: Global) -> Result<Term, Stop>
    ensures only_memory { IfErr result (λ s. s ≡ Memory) }
{
    match Term::make(alloc, Node::Sort(Sort::Prop)) {
        Ok(term) => Ok(term),
        Err(_) => Err(Stop::Memory),
    }
}

/// The context with one more assumption.
pub(crate) fn assume(alloc: Global, ctx: &Ctx) -> Result<Ctx, Stop>
    ensures longer { IfOk result (λ c. values c ≡ under 1 (values ctx.now)) }
    ensures only_memory { IfErr result (λ s. s ≡ Memory) }
{
    let ty = placeholder(alloc)?;
    let out = ctx.extended(alloc, Entry::Assumed(ty))?;
    Ok(out)
}

/// The context with so many assumptions more.
fn assume_all(alloc: Global, ctx: &Ctx, count: usize) -> Result<Ctx, Stop>
    ensures longer { IfOk result (λ c. values c ≡ under count (values ctx.now)) }
    ensures only_memory { IfErr result (λ s. s ≡ Memory) }
{
    let mut out = ctx.share()?;
    for i in 0..count {
        out = assume(alloc, &out)?;
    }
    Ok(out)
}

/// The context of a predicate: an assumption for each index of the family, and one for the scrutinee.
pub(crate) fn assume_indices(alloc: Global, ctx: &Ctx, family: &Family) -> Result<Ctx, Stop>
    ensures longer { IfOk result (λ c. values c ≡ under (suc (length family.now.indices)) (values ctx.now)) }
    ensures only_memory { IfErr result (λ s. s ≡ Memory) }
{
    let outer = assume_all(alloc, ctx, family.indices.len())?;
    let inner = assume(alloc, &outer)?;
    Ok(inner)
}

/// The context of a branch: an assumption for each argument of the constructor.
pub(crate) fn assume_arguments(alloc: Global, ctx: &Ctx, ctor: &Constructor) -> Result<Ctx, Stop>
    ensures longer { IfOk result (λ c. values c ≡ under (length ctor.now.args) (values ctx.now)) }
    ensures only_memory { IfErr result (λ s. s ≡ Memory) }
{
    let inner = assume_all(alloc, ctx, ctor.args.len())?;
    Ok(inner)
}

/// The context of a fixpoint's bodies: an assumption for each definition.
pub(crate) fn assume_definitions(alloc: Global, ctx: &Ctx, defs: &Defs) -> Result<Ctx, Stop>
    ensures longer { IfOk result (λ c. values c ≡ under (length defs.now) (values ctx.now)) }
    ensures only_memory { IfErr result (λ s. s ≡ Memory) }
{
    let inner = assume_all(alloc, ctx, defs.len())?;
    Ok(inner)
}
