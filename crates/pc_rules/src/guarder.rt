//! The guard of fixpoints.
ghost use Rattle.std.specs.Prelude.{IfOk};
ghost use Rattle.calculus_rules.specs.Context.{values};
ghost use Rattle.pc_rules.specs.FixConditions.{HasLambdas, RecursesOnFamilies, guard_rule, IsGuardedFix};
ghost use Rattle.pc_rules.specs.Follows.{Follows};
ghost use Rattle.pc_rules.specs.WellCounted.{IsCounted, IsCountedContext, IsCountedEnv};

use crate::context::Ctx;
use crate::environment::Env;
use crate::meter::Meter;
use crate::stop::Halt;
use pc_terms::term::Term;
use std::alloc::Global;

/// Judges whether fixpoints are guarded. What is well counted is said at `Converter`.
pub trait Guarder {
    /// Whether a fixpoint is guarded, by this project's guard condition; environment, context and term are well counted. The term is a
    /// fixpoint; in it and in each fixpoint inside it each body begins with one lambda more than the place of its recursive argument; and
    /// the weak-head normal forms of its own recursive arguments' types are families applied to arguments.
    ///
    /// `Broken` keeps the weak-head normal form of the first recursive call's argument that is not smaller, or the fixpoint's variable
    /// where it has too few arguments. `Spent` exactly where the walk has no end within the units left and `TooDeep` did not come.
    /// `TooDeep` only where a term is beyond the limits of terms in memory.
    fn fix(
        &self,
        alloc: Global,
        env: &Env,
        ctx: &Ctx,
        fix: &Term,
        m: &mut Meter,
    ) -> Result<(), Halt>
        requires env { IsCountedEnv env.now }
        requires ctx { IsCountedContext env.now ctx.now }
        requires counted { IsCounted env.now fix.now }
        requires lambdas { HasLambdas fix.now }
        requires families { RecursesOnFamilies env.now (values ctx.now) fix.now }
        ensures follows { Follows (guard_rule env.now (values ctx.now) fix.now m.old.account) result m.old m.new }
        ensures guarded { IfOk result (λ _. IsGuardedFix env.now (values ctx.now) fix.now) };
}

impl<G: Guarder> Guarder for &G {
    fn fix(
        &self,
        alloc: Global,
        env: &Env,
        ctx: &Ctx,
        fix: &Term,
        m: &mut Meter,
    ) -> Result<(), Halt> {
        (**self).fix(alloc, env, ctx, fix, m)
    }
}
