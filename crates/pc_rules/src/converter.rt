//! Comparison of terms by conversion.
ghost use Rattle.std.specs.Prelude.{true, false, ◌-◌, IfOk};
ghost use Rattle.calculus_rules.specs.Context.{values};
ghost use Rattle.calculus_rules.specs.Conversion.{Equal, Below};
ghost use Rattle.pc_rules.specs.DirectedComparison.{compare};
ghost use Rattle.pc_rules.specs.Entailment.{test_of};
ghost use Rattle.pc_rules.specs.Follows.{Follows};
ghost use Rattle.pc_rules.specs.WellCounted.{IsCounted, IsCountedContext, IsCountedEnv};
ghost use Rattle.pc_rules.specs.DirectedRun.{most_nested};

use crate::context::Ctx;
use crate::environment::Env;
use crate::meter::Meter;
use crate::stop::Halt;
use pc_terms::term::Term;
use std::alloc::Global;

/// Compares terms by conversion.
///
/// What is well counted has no level number above that of the environment's last level, and each match in it is of a family of a whole
/// block that is kept, with as many parameters, variables of its predicate, branches and variables of each branch as the block gives it
/// (`specs/WellCounted.antt`, which also names the form that each `Term` has).
pub trait Converter {
    /// Whether a term is below another (PCUIC, cumulativity); environment, context and terms are well counted.
    ///
    /// `Broken` keeps the first pair of weak-head normal forms that clash. `Spent` exactly where the comparison has no end within the units
    /// left and `TooDeep` did not come. `TooDeep` only where a term is beyond the limits of terms in memory, or more than 2,048 rules would
    /// stand in one another.
    fn below(
        &self,
        alloc: Global,
        env: &Env,
        ctx: &Ctx,
        a: &Term,
        b: &Term,
        m: &mut Meter,
    ) -> Result<(), Halt>
        requires env { IsCountedEnv env.now }
        requires ctx { IsCountedContext env.now ctx.now }
        requires left { IsCounted env.now a.now }
        requires right { IsCounted env.now b.now }
        ensures follows { Follows (compare env.now (test_of env.now) (most_nested - m.old.nest) ctx.now false a.now b.now m.old.account) result m.old m.new }
        ensures below { IfOk result (λ _. Below env.now (values ctx.now) a.now b.now) };

    /// Whether two terms are equal (PCUIC, conversion), with the conditions and refusals of `below`.
    fn equal(
        &self,
        alloc: Global,
        env: &Env,
        ctx: &Ctx,
        a: &Term,
        b: &Term,
        m: &mut Meter,
    ) -> Result<(), Halt>
        requires env { IsCountedEnv env.now }
        requires ctx { IsCountedContext env.now ctx.now }
        requires left { IsCounted env.now a.now }
        requires right { IsCounted env.now b.now }
        ensures follows { Follows (compare env.now (test_of env.now) (most_nested - m.old.nest) ctx.now true a.now b.now m.old.account) result m.old m.new }
        ensures equal { IfOk result (λ _. Equal env.now (values ctx.now) a.now b.now) };
}

impl<C: Converter> Converter for &C {
    fn below(
        &self,
        alloc: Global,
        env: &Env,
        ctx: &Ctx,
        a: &Term,
        b: &Term,
        m: &mut Meter,
    ) -> Result<(), Halt> {
        (**self).below(alloc, env, ctx, a, b, m)
    }

    fn equal(
        &self,
        alloc: Global,
        env: &Env,
        ctx: &Ctx,
        a: &Term,
        b: &Term,
        m: &mut Meter,
    ) -> Result<(), Halt> {
        (**self).equal(alloc, env, ctx, a, b, m)
    }
}
