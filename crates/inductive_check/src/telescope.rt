//! Telescopes: the types of their entries in turn, each under the entries before it.
ghost use Rattle.std.specs.Prelude.{◌≡◌, ◌+◌, [], ◌∷◌, IfOk, IfErr};
ghost use Rattle.calculus_rules.specs.Context.{extend};
ghost use Rattle.pc_rules.specs.DirectedTyping.{infer};
ghost use Rattle.pc_rules.specs.Entailment.{test_of};
ghost use Rattle.pc_rules.specs.Follows.{Follows};
ghost use Rattle.pc_rules.specs.WellCounted.{AreCounted, IsCountedContext, IsCountedEnv};
ghost use Rattle.pc_rules.specs.declared.stop.Stop.TheVariants.{Memory};
ghost use Rattle.pc_rules.specs.DirectedRun.{most_nested};
ghost use Rattle.inductive_check.specs.Arguments.{entries_rule};

use crate::types::sort_of;
use calculus_rules::entry::Entry;
use pc_rules::context::Ctx;
use pc_rules::environment::Env;
use pc_rules::meter::Meter;
use pc_rules::stop::{Halt, Stop};
use pc_rules::typer::Typer;
use pc_terms::lists::Telescope;
use pc_terms::term::Term;
use std::alloc::Global;

/// Puts an assumed entry of a type into a context, as the innermost. Only `Memory`, and the context is as before then.
pub fn assume(alloc: Global, ctx: &mut Ctx, ty: &Term) -> Result<(), Stop>
    ensures longer { IfOk result (λ _. ctx.new ≡ extend ctx.old (ty.now ∷ [])) }
    ensures only_memory { IfErr result (λ s. s ≡ Memory) }
{
    let entry = Entry::Assumed(ty.share()?);
    *ctx = ctx.extended(alloc, entry)?;
    Ok(())
}

/// Takes the sort of each entry of a telescope in turn and puts the entry into the context, with the refusals of `Typer::sort_of`. Where a
/// call is refused or stops, the context has the entries before.
pub(crate) fn enter<T: Typer>(
    alloc: Global,
    typer: &T,
    env: &Env,
    room: u32,
    ctx: &mut Ctx,
    telescope: &Telescope,
    m: &mut Meter,
) -> Result<(), Halt>
    requires nest { room + m.old.nest ≡ most_nested }
    requires env { IsCountedEnv env.now }
    requires ctx { IsCountedContext env.now ctx.old }
    ensures follows { Follows (entries_rule env.now (infer env.now (test_of env.now) room) ctx.old telescope.now m.old.account) result m.old m.new }
    ensures longer { IfOk result (λ _. ctx.new ≡ extend ctx.old telescope.now) }
    ensures counted { IfOk result (λ _. AreCounted env.now telescope.now) }
    ensures context { IfOk result (λ _. IsCountedContext env.now ctx.new) }
{
    for ty in telescope.as_slice() {
        let _sort = sort_of(alloc, typer, env, room, ctx, ty, m)?;
        assume(alloc, ctx, ty)?;
    }
    Ok(())
}
