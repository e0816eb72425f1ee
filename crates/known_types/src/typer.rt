//! Inference of types at a site.
ghost use Rattle.std.specs.Prelude.{◌-◌, IfOk};
ghost use Rattle.pc_terms.specs.Syntax.{SortT};
ghost use Rattle.calculus_rules.specs.Typing.{Types, guarded};
ghost use Rattle.pc_rules.specs.DirectedTyping.{infer, sort_of};
ghost use Rattle.pc_rules.specs.Entailment.{test_of};
ghost use Rattle.pc_rules.specs.Follows.{Follows};
ghost use Rattle.pc_rules.specs.WellCounted.{IsCountedContext, IsCountedEnv};
ghost use Rattle.pc_rules.specs.DirectedRun.{most_nested};
ghost use Rattle.known_types.specs.Located.{IsOf};

use crate::site::Site;
use pc_rules::context::Ctx;
use pc_rules::environment::Env;
use pc_rules::meter::Meter;
use pc_rules::stop::Halt;
use pc_terms::term::Term;
use std::alloc::Global;
use universe_levels::sort::Sort;

/// Infers types as `Typer` does, where what was inferred at a site before may be taken again. The answers, the units and the uses are the same.
pub trait SiteTyper {
    /// A type of a term.
    fn infer_in(
        &self,
        alloc: Global,
        env: &Env,
        ctx: &Ctx,
        site: &Site<'_>,
        t: &Term,
        m: &mut Meter,
    ) -> Result<Term, Halt>
        requires env { IsCountedEnv env.now }
        requires ctx { IsCountedContext env.now ctx.now }
        requires site { IsOf site.now env.now ctx.now }
        ensures follows { Follows (infer env.now (test_of env.now) (most_nested - m.old.nest) ctx.now t.now m.old.account) result m.old m.new }
        ensures typed { IfOk result (λ ty. Types guarded env.now ctx.now t.now ty) };

    /// The sort of a term that is a type.
    fn sort_in(
        &self,
        alloc: Global,
        env: &Env,
        ctx: &Ctx,
        site: &Site<'_>,
        t: &Term,
        m: &mut Meter,
    ) -> Result<Sort, Halt>
        requires env { IsCountedEnv env.now }
        requires ctx { IsCountedContext env.now ctx.now }
        requires site { IsOf site.now env.now ctx.now }
        ensures follows { Follows (sort_of env.now (infer env.now (test_of env.now) (most_nested - m.old.nest)) ctx.now t.now m.old.account) result m.old m.new }
        ensures typed { IfOk result (λ s. Types guarded env.now ctx.now t.now (SortT s)) };
}

impl<T: SiteTyper> SiteTyper for &T {
    fn infer_in(
        &self,
        alloc: Global,
        env: &Env,
        ctx: &Ctx,
        site: &Site<'_>,
        t: &Term,
        m: &mut Meter,
    ) -> Result<Term, Halt> {
        (**self).infer_in(alloc, env, ctx, site, t, m)
    }

    fn sort_in(
        &self,
        alloc: Global,
        env: &Env,
        ctx: &Ctx,
        site: &Site<'_>,
        t: &Term,
        m: &mut Meter,
    ) -> Result<Sort, Halt> {
        (**self).sort_in(alloc, env, ctx, site, t, m)
    }
}
