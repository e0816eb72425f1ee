//! Fixpoints unfolded.
ghost use Rattle.std.specs.Prelude.{◌≡◌, ◌<◌, Some, IfOk, IfErr, IsTrue, length};
ghost use Rattle.pc_terms.specs.Lists.{rargs_of, types_of, bodies_of};
ghost use Rattle.calculus_rules.specs.Instances.{fixpoints};
ghost use Rattle.pc_rules.specs.DirectedRun.{is_beyond};
ghost use Rattle.instances.specs.Unfolding.{fixpoint_at, unfolding_of, unfolding_beyond};
ghost use Rattle.pc_terms.specs.declared.term.MakeFault.TheVariants.{TooDeep, Memory};

use pc_terms::term::{Def, Defs, MakeFault, Node, Term, Terms};
use std::alloc::Global;

/// The same definitions in a list of their own.
fn shared_definitions(alloc: Global, defs: &Defs) -> Result<Defs, MakeFault>
    ensures ok { IfOk result (λ ds. ds ≡ defs.now) }
    ensures only_memory { IfErr result (λ e. e ≡ Memory) }
{
    let mut out = Defs::new(alloc);
    for d in defs.as_slice() {
        let ty = d.ty.share()?;
        let body = d.body.share()?;
        out.push(Def {
            ty,
            body,
            rarg: d.rarg,
        })?;
    }
    Ok(out)
}

/// The fixpoints of the definitions, the first first.
fn fixpoints_of(alloc: Global, defs: &Defs) -> Result<Terms, MakeFault>
    ensures ok { IfOk result (λ ts. ts ≡ fixpoints 0 (length defs.now) (rargs_of defs.now) (types_of defs.now) (bodies_of (length defs.now) defs.now)) }
    ensures too_deep { IfErr result (λ e. e ≡ TooDeep → IsTrue (is_beyond (fixpoint_at defs.now 0))) }
{
    let Ok(count) = u32::try_from(defs.len()) else {
        return Err(MakeFault::Memory);
    };
    let mut out = Terms::new(alloc);
    for i in 0..count {
        let all = shared_definitions(alloc, defs)?;
        let fixpoint = Term::make(alloc, Node::Fix(all, i))?;
        out.push(fixpoint)?;
    }
    Ok(out)
}

/// The unfolding of definition `i` of a fixpoint, counted from 0: its body with the fixpoints of all definitions put in for them (PCUIC, POPL
/// 2020, section 2).
///
/// The definition is there. Definitions and result stand in one context. `TooDeep` only where a fixpoint of these definitions or the
/// result is beyond the limits of terms, and else only `Memory`, which is also the answer for over 4,294,967,295 definitions: for the
/// last of them there may be no number of 32 bits.
pub fn fix_unfold(alloc: Global, defs: &Defs, i: u32) -> Result<Term, MakeFault>
    requires there { i < length defs.now }
    ensures ok { IfOk result (λ t. unfolding_of defs.now i ≡ Some t) }
    ensures too_deep { IfErr result (λ e. e ≡ TooDeep → IsTrue (unfolding_beyond defs.now i)) }
{
    let list = fixpoints_of(alloc, defs)?;
    let unfolded = defs.as_slice()[i as usize].body.subst_list(alloc, &list)?;
    Ok(unfolded)
}
