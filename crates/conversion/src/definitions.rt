//! The parts of the definitions of a fixpoint.
ghost use Rattle.std.specs.Prelude.{◌≡◌, IfOk, IfErr, length};
ghost use Rattle.pc_terms.specs.Lists.{types_of, bodies_of};
ghost use Rattle.pc_terms.specs.declared.term.MakeFault.TheVariants.{Memory};
ghost use Rattle.pc_terms.specs.Syntax.{list_of};

use pc_terms::term::{Defs, MakeFault, Terms};
use std::alloc::Global;

/// The types of the definitions. Only `Memory`.
pub fn types(alloc: Global, defs: &Defs) -> Result<Terms, MakeFault>
    ensures ok { IfOk result (λ out. out ≡ list_of (types_of defs.now)) }
    ensures only_memory { IfErr result (λ e. e ≡ Memory) }
{
    let mut out = Terms::new(alloc);
    let items = defs.as_slice();
    for i in 0..items.len() {
        let ty = items[i].ty.share()?;
        out.push(ty)?;
    }
    Ok(out)
}

/// The bodies of the definitions, each under all of them. Only `Memory`.
pub fn bodies(alloc: Global, defs: &Defs) -> Result<Terms, MakeFault>
    ensures ok { IfOk result (λ out. out ≡ list_of (bodies_of (length defs.now) defs.now)) }
    ensures only_memory { IfErr result (λ e. e ≡ Memory) }
{
    let mut out = Terms::new(alloc);
    let items = defs.as_slice();
    for i in 0..items.len() {
        let body = items[i].body.share()?;
        out.push(body)?;
    }
    Ok(out)
}
