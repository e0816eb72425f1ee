//! Conversion: the sort of a term, a term against a type, and a type in place of another.
ghost use Rattle.std.specs.Prelude.{◌≡◌, ◌+◌, false, IfOk};
ghost use Rattle.calculus_rules.specs.Context.{values};
ghost use Rattle.pc_rules.specs.Entailment.{test_of};
ghost use Rattle.pc_rules.specs.Follows.{Follows};
ghost use Rattle.pc_rules.specs.WellCounted.{IsCounted};
ghost use Rattle.pc_rules.specs.DirectedComparison.{compare};
ghost use Rattle.pc_rules.specs.DirectedTyping.{infer, conv, sort_of, check, retype};
ghost use Rattle.pc_rules.specs.DirectedRun.{most_nested};
ghost use Rattle.type_infer.specs.Ready.{IsReady};
ghost use Rattle.type_infer.specs.Unread.{FollowsUnread, sort_of_type};

use crate::inference::Inference;
use crate::universes::{is_sort, sort_of_sort, sorts_below};
use known_types::sited::Sited;
use pc_rules::broken::Broken;
use pc_rules::context::Ctx;
use pc_rules::converter::Converter;
use pc_rules::environment::Env;
use pc_rules::guarder::Guarder;
use pc_rules::meter::Meter;
use pc_rules::reducer::Reducer;
use pc_rules::stop::{Halt, Stop};
use pc_terms::term::{Node, Term};
use std::alloc::Global;
use universe_levels::sort::Sort;

/// The unit of a conversion, and the note of its use.
pub(crate) fn conv(m: &mut Meter) -> Result<(), Halt>
    ensures follows { Follows (conv m.old.account) result m.old m.new }
{
    if !m.tick() {
        return Err(Halt::Stop(Stop::Spent));
    }
    m.note(12);
    Ok(())
}

impl<R: Reducer + Drop, C: Converter + Drop, G: Guarder + Drop> Inference<R, C, G> {
    /// The sort of a term: its type's weak-head normal form, which is inferred again where it is another term than the type.
    #[cycle(infer)]
    pub(crate) fn sort_at<S: Sited>(
        &self,
        alloc: Global,
        env: &Env,
        ctx: &Ctx,
        site: &S,
        room: u32,
        t: &Term,
        m: &mut Meter,
    ) -> Result<Sort, Halt>
        requires nest { room + m.old.nest ≡ most_nested }
        requires ready { IsReady env.now ctx.now }
        requires site { S.is_of site.now env.now ctx.now }
        ensures follows { Follows (sort_of env.now (infer env.now (test_of env.now) room) ctx.now t.now m.old.account) result m.old m.new }
        ensures counted { IfOk result (λ _. IsCounted env.now t.now) }
    {
        let ty = self.infer_at(alloc, env, ctx, site, room, t, m)?;
        match ty.view() {
            Node::Sort(s) => Ok(s.share(alloc)?),
            _ => self.reduced_sort(alloc, env, ctx, site, room, &ty, m),
        }
    }

    /// That a term has a sort, which is not given.
    #[cycle(infer)]
    pub(crate) fn sorted_at<S: Sited>(
        &self,
        alloc: Global,
        env: &Env,
        ctx: &Ctx,
        site: &S,
        room: u32,
        t: &Term,
        m: &mut Meter,
    ) -> Result<(), Halt>
        requires nest { room + m.old.nest ≡ most_nested }
        requires ready { IsReady env.now ctx.now }
        requires site { S.is_of site.now env.now ctx.now }
        ensures follows { FollowsUnread (sort_of env.now (infer env.now (test_of env.now) room) ctx.now t.now m.old.account) result m.old m.new }
        ensures counted { IfOk result (λ _. IsCounted env.now t.now) }
    {
        match t.view() {
            Node::Sort(s) => sort_of_sort(env, s, m),
            _ => self.inferred_sorted(alloc, env, ctx, site, room, t, m),
        }
    }

    /// The same, by the term's type.
    #[cycle(infer)]
    fn inferred_sorted<S: Sited>(
        &self,
        alloc: Global,
        env: &Env,
        ctx: &Ctx,
        site: &S,
        room: u32,
        t: &Term,
        m: &mut Meter,
    ) -> Result<(), Halt>
        requires nest { room + m.old.nest ≡ most_nested }
        requires ready { IsReady env.now ctx.now }
        requires site { S.is_of site.now env.now ctx.now }
        ensures follows { FollowsUnread (sort_of env.now (infer env.now (test_of env.now) room) ctx.now t.now m.old.account) result m.old m.new }
        ensures counted { IfOk result (λ _. IsCounted env.now t.now) }
    {
        let ty = self.infer_at(alloc, env, ctx, site, room, t, m)?;
        if is_sort(&ty) {
            return Ok(());
        }
        let _sort = self.reduced_sort(alloc, env, ctx, site, room, &ty, m)?;
        Ok(())
    }

    /// The sort of a term by its type's weak-head normal form.
    #[cycle(infer)]
    fn reduced_sort<S: Sited>(
        &self,
        alloc: Global,
        env: &Env,
        ctx: &Ctx,
        site: &S,
        room: u32,
        ty: &Term,
        m: &mut Meter,
    ) -> Result<Sort, Halt>
        requires nest { room + m.old.nest ≡ most_nested }
        requires ready { IsReady env.now ctx.now }
        requires site { S.is_of site.now env.now ctx.now }
        ensures follows { Follows (sort_of_type env.now (infer env.now (test_of env.now) room) ctx.now ty.now m.old.account) result m.old m.new }
    {
        let whnf = self.reducer.whnf(alloc, env, ctx, ty, m)?;
        match whnf.view() {
            Node::Sort(s) => {
                let sort = s.share(alloc)?;
                if ty.same(&whnf) {
                    return Ok(sort);
                }
                conv(m)?;
                let _above = self.infer_at(alloc, env, ctx, site, room, &whnf, m)?;
                Ok(sort)
            }
            _ => Err(Halt::Broken(Broken::NotASort { whnf })),
        }
    }

    /// A term against a type: the one found, or one above it that has a sort.
    #[cycle(infer)]
    pub(crate) fn check_at<S: Sited>(
        &self,
        alloc: Global,
        env: &Env,
        ctx: &Ctx,
        site: &S,
        room: u32,
        t: &Term,
        ty: &Term,
        m: &mut Meter,
    ) -> Result<(), Halt>
        requires nest { room + m.old.nest ≡ most_nested }
        requires ready { IsReady env.now ctx.now }
        requires site { S.is_of site.now env.now ctx.now }
        ensures follows { Follows (check env.now (infer env.now (test_of env.now) room) (compare env.now (test_of env.now) room) ctx.now t.now ty.now m.old.account) result m.old m.new }
        ensures counted { IfOk result (λ _. IsCounted env.now t.now) }
        ensures type_counted { IfOk result (λ _. IsCounted env.now ty.now) }
    {
        let found = self.infer_at(alloc, env, ctx, site, room, t, m)?;
        if found.same(ty) {
            return Ok(());
        }
        conv(m)?;
        self.sorted_at(alloc, env, ctx, site, room, ty, m)?;
        self.below(alloc, env, ctx, room, &found, ty, m)
    }

    /// From a type to the weak-head normal form that is used in its place.
    #[cycle(infer)]
    pub(crate) fn retype<S: Sited>(
        &self,
        alloc: Global,
        env: &Env,
        ctx: &Ctx,
        site: &S,
        room: u32,
        ty: &Term,
        whnf: &Term,
        m: &mut Meter,
    ) -> Result<(), Halt>
        requires nest { room + m.old.nest ≡ most_nested }
        requires ready { IsReady env.now ctx.now }
        requires site { S.is_of site.now env.now ctx.now }
        ensures follows { Follows (retype env.now (infer env.now (test_of env.now) room) ctx.now ty.now whnf.now m.old.account) result m.old m.new }
    {
        if ty.same(whnf) {
            return Ok(());
        }
        conv(m)?;
        self.sorted_at(alloc, env, ctx, site, room, whnf, m)?;
        Ok(())
    }

    /// The comparison, by the number of rules that may still stand in one another. Two sorts are compared here.
    pub(crate) fn below(
        &self,
        alloc: Global,
        env: &Env,
        ctx: &Ctx,
        room: u32,
        a: &Term,
        b: &Term,
        m: &mut Meter,
    ) -> Result<(), Halt>
        requires nest { room + m.old.nest ≡ most_nested }
        requires ready { IsReady env.now ctx.now }
        requires left { IsCounted env.now a.now }
        requires right { IsCounted env.now b.now }
        ensures follows { Follows (compare env.now (test_of env.now) room ctx.now false a.now b.now m.old.account) result m.old m.new }
    {
        match (a.view(), b.view()) {
            (Node::Sort(s), Node::Sort(t)) => sorts_below(alloc, env, a, b, s, t, m),
            _ => self.converter.below(alloc, env, ctx, a, b, m),
        }
    }
}
