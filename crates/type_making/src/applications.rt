//! Applications: rule 6, which puts the arguments in all at once where the types of functions are written as products (`type_infer`: `pending`).
ghost use Rattle.std.specs.Prelude.{◌≡◌, ◌+◌};
ghost use Rattle.pc_rules.specs.DirectedRun.{most_nested};
ghost use Rattle.type_infer.specs.Ready.{IsReady};
ghost use Rattle.script_making.specs.Makes.{Makes};
ghost use Rattle.type_making.specs.Making.{app_making, infer_making};
ghost use Rattle.type_making.specs.PendingMaking.{MakesPending, reduced_making};
ghost use Rattle.pc_terms.specs.Syntax.{App};

use crate::typing::TypeMaker;
use cert_rules::item::CertItem;
use pc_rules::broken::Broken;
use pc_rules::context::Ctx;
use pc_rules::guarder::Guarder;
use pc_rules::reducer::Reducer;
use pc_rules::stop::{Halt, Stop};
use pc_terms::term::{Node, Term};
use script_making::draft::Draft;
use script_making::maker::Maker;
use std::alloc::Global;
use type_infer::pending::PendingType;

impl<R: Reducer, G: Guarder> TypeMaker<'_, R, G> {
    /// An application has the codomain of its function's type with the argument put in.
    #[cycle(infer)]
    pub(crate) fn app_rule(
        &self,
        alloc: Global,
        ctx: &Ctx,
        function: &Term,
        argument: &Term,
        draft: &mut Draft,
    ) -> Result<Term, Halt>
        requires nest { self.now.maker.room + draft.old.meter.nest ≡ most_nested }
        requires ready { IsReady self.now.maker.env.now ctx.now }
        ensures makes { Makes (app_making self.now.maker.env.now self.now.maker.room ctx.now function.now argument.now draft.old.meter.account) result draft.old draft.new }
    {
        let ty = self.application_type(alloc, ctx, function, argument, draft)?;
        Ok(ty.whole(alloc)?)
    }

    /// The same, of which arguments are still to be put in.
    #[cycle(infer)]
    fn application_type(
        &self,
        alloc: Global,
        ctx: &Ctx,
        function: &Term,
        argument: &Term,
        draft: &mut Draft,
    ) -> Result<PendingType, Halt>
        requires nest { self.now.maker.room + draft.old.meter.nest ≡ most_nested }
        requires ready { IsReady self.now.maker.env.now ctx.now }
        ensures makes { MakesPending (app_making self.now.maker.env.now self.now.maker.room ctx.now function.now argument.now draft.old.meter.account) result draft.old draft.new }
    {
        let ty = self.function_type(alloc, ctx, function, draft)?;
        match ty.base.view() {
            Node::Prod(domain, codomain) => {
                let wanted = ty.instance(alloc, domain)?;
                draft.put(CertItem::Number(0))?;
                self.check(alloc, ctx, argument, &wanted, draft)?;
                let base = codomain.share()?;
                Ok(ty.and(base, argument)?)
            }
            _ => {
                let whole = ty.whole(alloc)?;
                self.reduced_type(alloc, ctx, &whole, argument, draft)
            }
        }
    }

    /// The type of an application by the weak-head normal form of its function's type.
    #[cycle(infer)]
    fn reduced_type(
        &self,
        alloc: Global,
        ctx: &Ctx,
        ty: &Term,
        argument: &Term,
        draft: &mut Draft,
    ) -> Result<PendingType, Halt>
        requires nest { self.now.maker.room + draft.old.meter.nest ≡ most_nested }
        requires ready { IsReady self.now.maker.env.now ctx.now }
        ensures makes { MakesPending (reduced_making self.now.maker.env.now self.now.maker.room ctx.now argument.now ty.now draft.old.meter.account) result draft.old draft.new }
    {
        let whnf = self.maker.whnf(alloc, ctx, ty, draft)?;
        match whnf.view() {
            Node::Prod(domain, codomain) => {
                self.retype(alloc, ctx, ty, &whnf, draft)?;
                self.check(alloc, ctx, argument, domain, draft)?;
                Ok(PendingType::of_one(alloc, codomain, argument)?)
            }
            _ => Err(Halt::Broken(Broken::NotAProduct { whnf })),
        }
    }

    /// The type of a function, of which arguments are still to be put in where it is an application itself.
    #[cycle(infer)]
    fn function_type(
        &self,
        alloc: Global,
        ctx: &Ctx,
        t: &Term,
        draft: &mut Draft,
    ) -> Result<PendingType, Halt>
        requires nest { self.now.maker.room + draft.old.meter.nest ≡ most_nested }
        requires ready { IsReady self.now.maker.env.now ctx.now }
        ensures makes { MakesPending (infer_making self.now.maker.env.now self.now.maker.room ctx.now t.now draft.old.meter.account) result draft.old draft.new }
    {
        match t.view() {
            Node::App(f, a) => self.inner_type(alloc, ctx, f, a, draft),
            _ => {
                let ty = self.infer(alloc, ctx, t, draft)?;
                Ok(PendingType::of(alloc, ty))
            }
        }
    }

    /// The type of an application that is a function: a unit, one more rule that stands, the note of rule 6, and the rule.
    #[cycle(infer)]
    fn inner_type(
        &self,
        alloc: Global,
        ctx: &Ctx,
        function: &Term,
        argument: &Term,
        draft: &mut Draft,
    ) -> Result<PendingType, Halt>
        requires nest { self.now.maker.room + draft.old.meter.nest ≡ most_nested }
        requires ready { IsReady self.now.maker.env.now ctx.now }
        ensures makes { MakesPending (infer_making self.now.maker.env.now self.now.maker.room ctx.now (App function.now argument.now) draft.old.meter.account) result draft.old draft.new }
    {
        if !draft.meter.tick() {
            return Err(Halt::Stop(Stop::Spent));
        }
        if !draft.meter.enter() {
            return Err(Halt::Stop(Stop::TooDeep));
        }
        draft.meter.note(6);
        let inner = TypeMaker {
            maker: Maker {
                reducer: self.maker.reducer,
                env: self.maker.env,
                room: self.maker.room - 1,
            },
            guarder: self.guarder,
        };
        let answer = inner.application_type(alloc, ctx, function, argument, draft);
        draft.meter.leave();
        answer
    }
}
