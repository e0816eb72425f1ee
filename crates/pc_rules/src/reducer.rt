//! Reduction to weak-head normal form.
ghost use Rattle.std.specs.Prelude.{IfOk};
ghost use Rattle.calculus_rules.specs.Context.{values};
ghost use Rattle.calculus_rules.specs.WeakHead.{WeakSteps};
ghost use Rattle.pc_rules.specs.DirectedWeakHead.{whnf};
ghost use Rattle.pc_rules.specs.Follows.{Follows, halted};

use crate::context::Ctx;
use crate::environment::Env;
use crate::meter::Meter;
use crate::stop::Stop;
use pc_terms::term::Term;
use std::alloc::Global;

/// Reduces terms to weak-head normal form.
pub trait Reducer {
    /// The weak-head normal form of a term, for which each weak-head step takes a unit (PCUIC, weak-head reduction). `Spent` exactly where
    /// the steps have no end within the units left and `TooDeep` did not come. `TooDeep` only where a term of the steps is beyond the
    /// limits of terms in memory.
    fn whnf(
        &self,
        alloc: Global,
        env: &Env,
        ctx: &Ctx,
        t: &Term,
        m: &mut Meter,
    ) -> Result<Term, Stop>
        ensures follows { Follows (whnf env.now (values ctx.now) t.now m.old.account) (halted result) m.old m.new }
        ensures reached { IfOk result (λ w. WeakSteps env.now (values ctx.now) t.now w) };
}

impl<R: Reducer> Reducer for &R {
    fn whnf(
        &self,
        alloc: Global,
        env: &Env,
        ctx: &Ctx,
        t: &Term,
        m: &mut Meter,
    ) -> Result<Term, Stop> {
        (**self).whnf(alloc, env, ctx, t, m)
    }
}
