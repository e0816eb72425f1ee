//! The judgements of a typer, where `room` rules may still stand in one another.
ghost use Rattle.std.specs.Prelude.{◌≡◌, ◌+◌, IfOk};
ghost use Rattle.universe_levels.specs.Consistency.{IsSortOver};
ghost use Rattle.pc_rules.specs.DirectedTyping.{infer, sort_of};
ghost use Rattle.pc_rules.specs.Entailment.{test_of};
ghost use Rattle.pc_rules.specs.Follows.{Follows};
ghost use Rattle.pc_rules.specs.WellCounted.{IsCounted, IsCountedContext, IsCountedEnv};
ghost use Rattle.pc_rules.specs.DirectedRun.{most_nested};
ghost use Rattle.inductive_check.specs.Arguments.{check_within};

use crate::setting::BlockSetting;
use pc_rules::context::Ctx;
use pc_rules::environment::Env;
use pc_rules::meter::Meter;
use pc_rules::stop::Halt;
use pc_rules::typer::Typer;
use pc_terms::term::Term;
use std::alloc::Global;
use universe_levels::sort::Sort;

/// The sort of a term that is a type, with the refusals of `Typer::sort_of`.
pub(crate) fn sort_of<T: Typer>(
    alloc: Global,
    typer: &T,
    env: &Env,
    room: u32,
    ctx: &Ctx,
    t: &Term,
    m: &mut Meter,
) -> Result<Sort, Halt>
    requires nest { room + m.old.nest ≡ most_nested }
    requires env { IsCountedEnv env.now }
    requires ctx { IsCountedContext env.now ctx.now }
    ensures follows { Follows (sort_of env.now (infer env.now (test_of env.now) room) ctx.now t.now m.old.account) result m.old m.new }
    ensures counted { IfOk result (λ _. IsCounted env.now t.now) }
    ensures over { IfOk result (λ s. IsSortOver env.now.levels s) }
{
    // The constraints of an environment are consistent, and a term has the form of terms in memory.
    let _ = env.graph();
    let _ = t.view();
    typer.sort_of(alloc, env, ctx, t, m)
}

/// Whether a term has a type, with the refusals of `Typer::check`.
pub(crate) fn check<T: Typer>(
    alloc: Global,
    setting: &BlockSetting<'_, T>,
    ctx: &Ctx,
    t: &Term,
    ty: &Term,
    m: &mut Meter,
) -> Result<(), Halt>
    requires nest { setting.now.room + m.old.nest ≡ most_nested }
    requires env { IsCountedEnv setting.now.env.now }
    requires ctx { IsCountedContext setting.now.env.now ctx.now }
    ensures follows { Follows (check_within setting.now.env.now setting.now.room ctx.now t.now ty.now m.old.account) result m.old m.new }
    ensures counted { IfOk result (λ _. IsCounted setting.now.env.now t.now) }
{
    let _ = setting.env.graph();
    let _ = t.view();
    let _ = ty.view();
    setting.typer.check(alloc, setting.env, ctx, t, ty, m)
}
