//! Inference of types.
ghost use Rattle.std.specs.Prelude.{◌-◌, IfOk};
ghost use Rattle.pc_terms.specs.Syntax.{SortT};
ghost use Rattle.calculus_rules.specs.Context.{values};
ghost use Rattle.calculus_rules.specs.Typing.{Types, guarded};
ghost use Rattle.pc_rules.specs.DirectedComparison.{compare};
ghost use Rattle.pc_rules.specs.DirectedTyping.{infer, sort_of, check};
ghost use Rattle.pc_rules.specs.Entailment.{test_of};
ghost use Rattle.pc_rules.specs.Follows.{Follows};
ghost use Rattle.pc_rules.specs.WellCounted.{IsCountedContext, IsCountedEnv};
ghost use Rattle.pc_rules.specs.DirectedRun.{most_nested};

use crate::context::Ctx;
use crate::environment::Env;
use crate::meter::Meter;
use crate::stop::Halt;
use pc_terms::term::Term;
use std::alloc::Global;
use universe_levels::sort::Sort;

/// Infers types by the typing rules (PCUIC, typing), in the order of the directed rules.
///
/// Environment and context are well counted: no level number in them is above that of the environment's last level, and each match in them
/// is of a family of a whole block that is kept, with as many parameters, variables and branches as the block gives it (said in full at
/// `Converter`). `Broken` keeps what the first broken rule says. `Spent` exactly where the rules have no end within the units left and
/// `TooDeep` did not come. `TooDeep` only where a term is beyond the limits of terms in memory, an addition to a level would pass
/// 4,294,967,295, or more than 2,048 rules would stand in one another.
pub trait Typer {
    /// A type of a term.
    fn infer(
        &self,
        alloc: Global,
        env: &Env,
        ctx: &Ctx,
        t: &Term,
        m: &mut Meter,
    ) -> Result<Term, Halt>
        requires env { IsCountedEnv env.now }
        requires ctx { IsCountedContext env.now ctx.now }
        ensures follows { Follows (infer env.now (test_of env.now) (most_nested - m.old.nest) ctx.now t.now m.old.account) result m.old m.new }
        ensures typed { IfOk result (λ ty. Types guarded env.now ctx.now t.now ty) };

    /// The sort of a term that is a type.
    fn sort_of(
        &self,
        alloc: Global,
        env: &Env,
        ctx: &Ctx,
        t: &Term,
        m: &mut Meter,
    ) -> Result<Sort, Halt>
        requires env { IsCountedEnv env.now }
        requires ctx { IsCountedContext env.now ctx.now }
        ensures follows { Follows (sort_of env.now (infer env.now (test_of env.now) (most_nested - m.old.nest)) ctx.now t.now m.old.account) result m.old m.new }
        ensures typed { IfOk result (λ s. Types guarded env.now ctx.now t.now (SortT s)) };

    /// Whether a term has a type.
    fn check(
        &self,
        alloc: Global,
        env: &Env,
        ctx: &Ctx,
        t: &Term,
        ty: &Term,
        m: &mut Meter,
    ) -> Result<(), Halt>
        requires env { IsCountedEnv env.now }
        requires ctx { IsCountedContext env.now ctx.now }
        ensures follows { Follows (check env.now (infer env.now (test_of env.now) (most_nested - m.old.nest)) (compare env.now (test_of env.now) (most_nested - m.old.nest)) ctx.now t.now ty.now m.old.account) result m.old m.new }
        ensures typed { IfOk result (λ _. Types guarded env.now ctx.now t.now ty.now) };
}

impl<T: Typer> Typer for &T {
    fn infer(
        &self,
        alloc: Global,
        env: &Env,
        ctx: &Ctx,
        t: &Term,
        m: &mut Meter,
    ) -> Result<Term, Halt> {
        (**self).infer(alloc, env, ctx, t, m)
    }

    fn sort_of(
        &self,
        alloc: Global,
        env: &Env,
        ctx: &Ctx,
        t: &Term,
        m: &mut Meter,
    ) -> Result<Sort, Halt> {
        (**self).sort_of(alloc, env, ctx, t, m)
    }

    fn check(
        &self,
        alloc: Global,
        env: &Env,
        ctx: &Ctx,
        t: &Term,
        ty: &Term,
        m: &mut Meter,
    ) -> Result<(), Halt> {
        (**self).check(alloc, env, ctx, t, ty, m)
    }
}
