//! Applications: rule 6. The types of functions stay products of which arguments are still to be put in as long as they are written as such,
//! so an application to many arguments puts these in all at once.
ghost use Rattle.std.specs.Prelude.{◌≡◌, ◌+◌};
ghost use Rattle.pc_rules.specs.Entailment.{test_of};
ghost use Rattle.pc_rules.specs.Follows.{Follows};
ghost use Rattle.pc_terms.specs.Syntax.{App};
ghost use Rattle.pc_rules.specs.DirectedComparison.{compare};
ghost use Rattle.pc_rules.specs.DirectedTyping.{infer, app_rule};
ghost use Rattle.pc_rules.specs.DirectedRun.{most_nested};
ghost use Rattle.type_infer.specs.Pending.{FollowsPending, reduced_rule};
ghost use Rattle.type_infer.specs.Ready.{IsReady};

use crate::inference::Inference;
use crate::pending::PendingType;
use known_types::sited::Sited;
use pc_rules::broken::Broken;
use pc_rules::context::Ctx;
use pc_rules::converter::Converter;
use pc_rules::environment::Env;
use pc_rules::guarder::Guarder;
use pc_rules::meter::Meter;
use pc_rules::reducer::Reducer;
use pc_rules::stop::{Halt, Stop};
use pc_terms::term::{Node, Term};
use std::alloc::Global;

impl<R: Reducer + Drop, C: Converter + Drop, G: Guarder + Drop> Inference<R, C, G> {
    /// An application has the codomain of its function's type with the argument put in.
    #[cycle(infer)]
    pub(crate) fn app_rule<S: Sited>(
        &self,
        alloc: Global,
        env: &Env,
        ctx: &Ctx,
        site: &S,
        room: u32,
        function: &Term,
        argument: &Term,
        m: &mut Meter,
    ) -> Result<Term, Halt>
        requires nest { room + m.old.nest ≡ most_nested }
        requires ready { IsReady env.now ctx.now }
        requires site { S.is_of site.now env.now ctx.now }
        ensures follows { Follows (app_rule env.now (infer env.now (test_of env.now) room) (compare env.now (test_of env.now) room) ctx.now function.now argument.now m.old.account) result m.old m.new }
    {
        let ty = self.application_type(alloc, env, ctx, site, room, function, argument, m)?;
        Ok(ty.whole(alloc)?)
    }

    /// The same, of which arguments are still to be put in.
    #[cycle(infer)]
    fn application_type<S: Sited>(
        &self,
        alloc: Global,
        env: &Env,
        ctx: &Ctx,
        site: &S,
        room: u32,
        function: &Term,
        argument: &Term,
        m: &mut Meter,
    ) -> Result<PendingType, Halt>
        requires nest { room + m.old.nest ≡ most_nested }
        requires ready { IsReady env.now ctx.now }
        requires site { S.is_of site.now env.now ctx.now }
        ensures follows { FollowsPending (app_rule env.now (infer env.now (test_of env.now) room) (compare env.now (test_of env.now) room) ctx.now function.now argument.now m.old.account) result m.old m.new }
    {
        let ty = self.function_type(alloc, env, ctx, site, room, function, m)?;
        match ty.base.view() {
            Node::Prod(domain, codomain) => {
                let wanted = ty.instance(alloc, domain)?;
                self.check_at(alloc, env, ctx, site, room, argument, &wanted, m)?;
                let base = codomain.share()?;
                Ok(ty.and(base, argument)?)
            }
            _ => {
                let whole = ty.whole(alloc)?;
                self.reduced_type(alloc, env, ctx, site, room, &whole, argument, m)
            }
        }
    }

    /// The type of an application by the weak-head normal form of its function's type.
    #[cycle(infer)]
    fn reduced_type<S: Sited>(
        &self,
        alloc: Global,
        env: &Env,
        ctx: &Ctx,
        site: &S,
        room: u32,
        ty: &Term,
        argument: &Term,
        m: &mut Meter,
    ) -> Result<PendingType, Halt>
        requires nest { room + m.old.nest ≡ most_nested }
        requires ready { IsReady env.now ctx.now }
        requires site { S.is_of site.now env.now ctx.now }
        ensures follows { FollowsPending (reduced_rule env.now (infer env.now (test_of env.now) room) (compare env.now (test_of env.now) room) ctx.now argument.now ty.now m.old.account) result m.old m.new }
    {
        let whnf = self.reducer.whnf(alloc, env, ctx, ty, m)?;
        match whnf.view() {
            Node::Prod(domain, codomain) => {
                self.retype(alloc, env, ctx, site, room, ty, &whnf, m)?;
                self.check_at(alloc, env, ctx, site, room, argument, domain, m)?;
                Ok(PendingType::of_one(alloc, codomain, argument)?)
            }
            _ => Err(Halt::Broken(Broken::NotAProduct { whnf })),
        }
    }

    /// The type of a function, of which arguments are still to be put in where it is an application itself.
    #[cycle(infer)]
    fn function_type<S: Sited>(
        &self,
        alloc: Global,
        env: &Env,
        ctx: &Ctx,
        site: &S,
        room: u32,
        t: &Term,
        m: &mut Meter,
    ) -> Result<PendingType, Halt>
        requires nest { room + m.old.nest ≡ most_nested }
        requires ready { IsReady env.now ctx.now }
        requires site { S.is_of site.now env.now ctx.now }
        ensures follows { FollowsPending (infer env.now (test_of env.now) room ctx.now t.now m.old.account) result m.old m.new }
    {
        match t.view() {
            Node::App(f, a) => self.prefix_type(alloc, env, ctx, site, room, t, f, a, m),
            _ => {
                let ty = self.infer_at(alloc, env, ctx, site, room, t, m)?;
                Ok(PendingType::of(alloc, ty))
            }
        }
    }

    /// The type of the application `t` that is a function: as it is known, or else inferred. What is kept has its arguments put in.
    #[cycle(infer)]
    fn prefix_type<S: Sited>(
        &self,
        alloc: Global,
        env: &Env,
        ctx: &Ctx,
        site: &S,
        room: u32,
        t: &Term,
        function: &Term,
        argument: &Term,
        m: &mut Meter,
    ) -> Result<PendingType, Halt>
        requires nest { room + m.old.nest ≡ most_nested }
        requires ready { IsReady env.now ctx.now }
        requires site { S.is_of site.now env.now ctx.now }
        requires whole { App function.now argument.now ≡ t.now }
        ensures follows { FollowsPending (infer env.now (test_of env.now) room ctx.now t.now m.old.account) result m.old m.new }
    {
        if let Some(ty) = site.known(room, t, m) {
            return Ok(PendingType::of(alloc, ty));
        }
        let before = m.account;
        let ty = self.inner_type(alloc, env, ctx, site, room, function, argument, m)?;
        if !site.keeps() {
            return Ok(ty);
        }
        let Ok(whole) = ty.whole(alloc) else {
            return Ok(ty);
        };
        site.keep(alloc, room, t, &whole, &before, &m.account);
        Ok(PendingType::of(alloc, whole))
    }

    /// The type of an application that is a function: a unit, one more rule that stands, the note of rule 6, and the rule.
    #[cycle(infer)]
    fn inner_type<S: Sited>(
        &self,
        alloc: Global,
        env: &Env,
        ctx: &Ctx,
        site: &S,
        room: u32,
        function: &Term,
        argument: &Term,
        m: &mut Meter,
    ) -> Result<PendingType, Halt>
        requires nest { room + m.old.nest ≡ most_nested }
        requires ready { IsReady env.now ctx.now }
        requires site { S.is_of site.now env.now ctx.now }
        ensures follows { FollowsPending (infer env.now (test_of env.now) room ctx.now (App function.now argument.now) m.old.account) result m.old m.new }
    {
        if !m.tick() {
            return Err(Halt::Stop(Stop::Spent));
        }
        if !m.enter() {
            return Err(Halt::Stop(Stop::TooDeep));
        }
        m.note(6);
        let answer = self.application_type(alloc, env, ctx, site, room - 1, function, argument, m);
        m.leave();
        answer
    }
}
