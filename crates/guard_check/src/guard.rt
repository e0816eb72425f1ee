//! The guard of fixpoints by a walk over their definitions' bodies.
ghost use Rattle.std.specs.Prelude.{◌≡◌, [], IfOk, IfErr, length};
ghost use Rattle.pc_terms.specs.Lists.{rargs_of, bodies_of};
ghost use Rattle.calculus_rules.specs.Context.{values, under};
ghost use Rattle.calculus_rules.specs.Guardedness.{definition_marks};
ghost use Rattle.pc_rules.specs.DirectedGuard.{recursive_block, body_guard, fix_guard};
ghost use Rattle.pc_rules.specs.Follows.{Follows, halted};
ghost use Rattle.pc_rules.specs.declared.stop.Stop.TheVariants.{Memory};
ghost use Rattle.guard_check.specs.Marks.{values_in, marks_in};

use crate::families::head_block;
use crate::mark::Mark;
use crate::scope::Scope;
use pc_rules::context::Ctx;
use pc_rules::environment::Env;
use pc_rules::guarder::Guarder;
use pc_rules::meter::Meter;
use pc_rules::reducer::Reducer;
use pc_rules::stop::{Halt, Stop};
use pc_terms::leaf::Name;
use pc_terms::term::{Def, Node, Term};
use std::alloc::Global;

/// Judges fixpoints by the weak-head normal forms that a reducer gives.
#[derive(Drop)]
pub struct Guard<R: Drop> {
    pub(crate) reducer: R,
}

impl<R: Reducer + Drop> Guarder for Guard<R> {
    fn fix(
        &self,
        alloc: Global,
        env: &Env,
        ctx: &Ctx,
        fix: &Term,
        m: &mut Meter,
    ) -> Result<(), Halt> {
        match fix.view() {
            Node::Fix(defs, _) => self.bodies(alloc, env, ctx, defs.as_slice(), m),
            _ => Ok(()),
        }
    }
}

/// The scope of the bodies of definitions, of which the last is variable 0. Only `Memory`.
fn definitions_scope(alloc: Global, ctx: &Ctx, defs: &[Def]) -> Result<Scope, Stop>
    ensures values { IfOk result (λ s. values_in s ≡ under (length defs.now) (values ctx.now)) }
    ensures marks { IfOk result (λ s. marks_in s ≡ definition_marks (rargs_of defs.now) []) }
    ensures only_memory { IfErr result (λ e. e ≡ Memory) }
{
    let mut scope = Scope::of(ctx)?;
    for def in defs {
        scope = scope.assumed(alloc, &def.ty, Mark::Recursive(def.rarg))?;
    }
    Ok(scope)
}

impl<R: Reducer + Drop> Guard<R> {
    /// A guard that reduces by `reducer`. Takes no memory.
    pub fn new(reducer: R) -> Guard<R>
        ensures reducer { result.reducer ≡ reducer }
    {
        Guard { reducer }
    }

    /// The bodies of definitions, from the first to the last.
    fn bodies(
        &self,
        alloc: Global,
        env: &Env,
        ctx: &Ctx,
        defs: &[Def],
        m: &mut Meter,
    ) -> Result<(), Halt>
        ensures follows { Follows (fix_guard env.now (values ctx.now) (rargs_of defs.now) (bodies_of (length defs.now) defs.now) m.old.account) result m.old m.new }
    {
        let scope = definitions_scope(alloc, ctx, defs)?;
        for def in defs {
            self.body(alloc, env, &scope, def.rarg, &def.body, m)?;
        }
        Ok(())
    }

    /// The recursive block of a body: that of the family at the head of the weak-head normal form of the domain of lambda number rarg.
    fn recursive_block(
        &self,
        alloc: Global,
        env: &Env,
        scope: &Scope,
        rarg: u32,
        t: &Term,
        m: &mut Meter,
    ) -> Result<Option<Name>, Stop>
        ensures follows { Follows (recursive_block env.now (values_in scope.now) rarg t.now m.old.account) (halted result) m.old m.new }
    {
        let Node::Lambda(domain, body) = t.view() else {
            return Ok(None);
        };
        if rarg == 0 {
            let whnf = self.reducer.whnf(alloc, env, &scope.ctx, domain, m)?;
            return Ok(head_block(&whnf));
        }
        let inner = scope.assumed(alloc, domain, Mark::Other)?;
        self.recursive_block(alloc, env, &inner, rarg - 1, body, m)
    }

    /// The body of a definition: the recursive block, then the domains of its lambdas up to that of the recursive argument, and then what is
    /// under them.
    fn body(
        &self,
        alloc: Global,
        env: &Env,
        scope: &Scope,
        rarg: u32,
        t: &Term,
        m: &mut Meter,
    ) -> Result<(), Halt>
        ensures follows { Follows (body_guard env.now (values_in scope.now) (marks_in scope.now) rarg t.now m.old.account) result m.old m.new }
    {
        let recursive = self.recursive_block(alloc, env, scope, rarg, t, m)?;
        self.under(alloc, env, recursive, scope, Mark::Argument, rarg, t, m)
    }
}
