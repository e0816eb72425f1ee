//! Families and constructors applied to lifted parameters and to variables.
ghost use Rattle.std.specs.Prelude.{◌≡◌, ◌+◌, ◌≤◌, ◌++◌, ◌^◌, IfOk, IfErr, IsTrue, map};
ghost use Rattle.trees.specs.Measures.{IsBeyond};
ghost use Rattle.pc_terms.specs.Syntax.{shift, apply, variables};
ghost use Rattle.pc_rules.specs.DirectedRun.{any_beyond};
ghost use Rattle.pc_terms.specs.declared.term.MakeFault.TheVariants.{TooDeep, Memory};

use pc_terms::term::{MakeFault, Node, Term, Terms};
use std::alloc::Global;

/// Puts the `count` innermost variables, lifted by `above`, behind the items of a list, the outermost first.
pub(crate) fn push_variables(
    out: &mut Terms,
    alloc: Global,
    above: u32,
    count: u32,
) -> Result<(), MakeFault>
    requires fits { above + count ≤ 2 ^ 32 }
    ensures ok { IfOk result (λ _. out.new ≡ out.old ++ map (shift above 0) (variables count)) }
    ensures only_memory { IfErr result (λ e. e ≡ Memory) }
{
    for i in 0..count {
        let variable = Term::make(alloc, Node::Rel(above + (count - 1 - i)))?;
        out.push(variable)?;
    }
    Ok(())
}

/// Puts the terms of one list behind those of another.
pub(crate) fn push_shared(out: &mut Terms, items: &Terms) -> Result<(), MakeFault>
    ensures ok { IfOk result (λ _. out.new ≡ out.old ++ items.now) }
    ensures only_memory { IfErr result (λ e. e ≡ Memory) }
{
    let items = items.as_slice();
    for i in 0..items.len() {
        let item = items[i].share()?;
        out.push(item)?;
    }
    Ok(())
}

/// The terms of a list, each lifted by `count`. `TooDeep` only where one of those asked for is beyond the limits.
fn lifted_terms(alloc: Global, items: &Terms, count: u32) -> Result<Terms, MakeFault>
    ensures ok { IfOk result (λ out. out ≡ map (shift count 0) items.now) }
    ensures too_deep { IfErr result (λ e. e ≡ TooDeep → IsTrue (any_beyond (map (shift count 0) items.now))) }
{
    let mut out = Terms::new(alloc);
    for item in items.as_slice() {
        let lifted = item.lift(alloc, count, 0)?;
        out.push(lifted)?;
    }
    Ok(out)
}

/// A head applied to parameters, each lifted by `count`, and to the `count` innermost variables, the outermost first. `TooDeep` only where
/// that is beyond the limits.
pub(crate) fn apply_under(
    alloc: Global,
    head: &Term,
    params: &Terms,
    count: u32,
) -> Result<Term, MakeFault>
    ensures ok { IfOk result (λ t. t ≡ apply head.now (map (shift count 0) params.now ++ variables count)) }
    ensures too_deep { IfErr result (λ e. e ≡ TooDeep → IsBeyond (apply head.now (map (shift count 0) params.now ++ variables count))) }
{
    let mut arguments = lifted_terms(alloc, params, count)?;
    push_variables(&mut arguments, alloc, 0, count)?;
    let applied = head.apply(alloc, &arguments)?;
    Ok(applied)
}
