//! Contexts under the binders of a telescope, and the entries of the definitions of a fixpoint.
ghost use Rattle.std.specs.Prelude.{◌≡◌, IfOk, IfErr, IsTrue};
ghost use Rattle.pc_terms.specs.Lists.{types_of};
ghost use Rattle.pc_terms.specs.declared.term.MakeFault.TheVariants as make;
ghost use Rattle.pc_terms.specs.Syntax.{list_of};
ghost use Rattle.calculus_rules.specs.Context.{extend};
ghost use Rattle.pc_rules.specs.DirectedRun.{any_beyond};
ghost use Rattle.pc_rules.specs.DirectedComparison.{lifted_types};
ghost use Rattle.pc_rules.specs.declared.stop.Stop.TheVariants.{Memory};

use calculus_rules::entry::Entry;
use pc_rules::context::Ctx;
use pc_rules::stop::Stop;
use pc_terms::lists::Telescope;
use pc_terms::term::{Defs, MakeFault};
use std::alloc::Global;

/// The context with the entries of a telescope, assumed, of which the last is the innermost. Only `Memory`.
pub fn extended(alloc: Global, ctx: &Ctx, entries: &Telescope) -> Result<Ctx, Stop>
    ensures longer { IfOk result (λ c. c ≡ extend ctx.now entries.now) }
    ensures only_memory { IfErr result (λ s. s ≡ Memory) }
{
    let mut out = ctx.share()?;
    let items = entries.as_slice();
    for i in 0..items.len() {
        let ty = items[i].share()?;
        out = out.extended(alloc, Entry::Assumed(ty))?;
    }
    Ok(out)
}

/// The entries of the definitions: their types, each lifted over those before it. `TooDeep` only where one of them is beyond the limits
/// of terms, and else only `Memory`.
pub fn definition_entries(alloc: Global, defs: &Defs) -> Result<Telescope, MakeFault>
    ensures ok { IfOk result (λ out. out ≡ lifted_types 0 (list_of (types_of defs.now))) }
    ensures too_deep { IfErr result (λ e. e ≡ make.TooDeep → IsTrue (any_beyond (lifted_types 0 (list_of (types_of defs.now))))) }
{
    let mut out = Telescope::new(alloc);
    let items = defs.as_slice();
    // No memory holds more definitions than numbers of 32 bits.
    let Ok(count) = u32::try_from(items.len()) else {
        return Err(MakeFault::Memory);
    };
    for i in 0..count {
        let ty = items[i as usize].ty.lift(alloc, i, 0)?;
        out.push(ty)?;
    }
    Ok(out)
}
